// Policy tables: the standard one (`default-table`) and the faults of others (`table-faults`), including long ones.

use he_addr::{Prefix, read_ip, read_prefix};
use he_select::limits::ROWS;
use he_select::{Policy, PolicyFault, Row};
use refusing::Refusing;

// An address, its precedence and its label by the standard table (RFC 6724 section 2.1).
static STANDARD: [(&str, u16, u16); 9] = [
    ("::1", 50, 0),
    ("2001:db8::1", 40, 1),
    ("10.0.0.1", 35, 4),
    ("2002:c633:6401::1", 30, 2),
    ("2001:0:1::1", 5, 5),
    ("fd00::1", 3, 13),
    ("::c000:201", 1, 3),
    ("fec0::1", 1, 11),
    ("3ffe::1", 1, 12),
];

// Whether the standard table gives the address this precedence and label.
fn is_right(policy: &Policy<&Refusing>, address: &(&str, u16, u16)) -> bool {
    match read_ip(address.0.as_bytes()) {
        Some(ip) => (policy.precedence(ip), policy.label(ip)) == (address.1, address.2),
        None => false,
    }
}

// The number of addresses with the required precedence and label, up to the first wrong one.
fn right_addresses(policy: &Policy<&Refusing>) -> usize {
    let mut right: usize = 0;
    for address in &STANDARD {
        if !is_right(policy, address) {
            break;
        }
        right = right.saturating_add(1);
    }
    right
}

fn is_standard_right(heap: &Refusing) -> bool {
    match Policy::standard(heap) {
        Ok(policy) => right_addresses(&policy) == STANDARD.len(),
        Err(_) => false,
    }
}

fn row(text: &str, precedence: u16) -> Option<Row> {
    let prefix = read_prefix(text.as_bytes())?;
    Some(Row {
        prefix,
        precedence,
        label: 1,
    })
}

// The rows of the tables below.
fn rows() -> Option<[Row; 8]> {
    Some([
        row("::/0", 41)?,
        row("::/0", 40)?,
        row("::ffff:0:0/96", 35)?,
        row("2002::/16", 35)?,
        row("10.0.0.0/8", 40)?,
        row("::/0", 40)?,
        row("::ffff:0:0/96", 40)?,
        row("::/0", 41)?,
    ])
}

// The place of a table's first row and the one after its last, and the table's fault.
static TABLES: [(usize, usize, Option<PolicyFault>); 8] = [
    (0, 0, Some(PolicyFault::Size)),
    (0, 2, Some(PolicyFault::Repeated(1))),
    (2, 3, Some(PolicyFault::NoDefault)),
    (1, 2, Some(PolicyFault::NoMapped)),
    (5, 7, Some(PolicyFault::SharedPrecedence(0, 1))),
    (1, 5, Some(PolicyFault::SharedPrecedence(0, 3))),
    (5, 8, Some(PolicyFault::Repeated(2))),
    (1, 3, None),
];

// Whether the rows have this fault, both when copied and when taken over.
fn has_fault(heap: &Refusing, table: &[Row], wanted: Option<PolicyFault>) -> Option<bool> {
    let list = Vec::from_slice(heap, table).ok()?;
    let taken = Policy::from_list(list).err();
    let copied = Policy::from_rows(heap, table).err();
    Some(taken == wanted && copied == wanted)
}

// The number of tables that are refused as required, up to the first wrong one.
fn right_tables(heap: &Refusing) -> Option<usize> {
    let rows = rows()?;
    let mut right: usize = 0;
    for (from, to, wanted) in &TABLES {
        let table = rows.get(*from..*to)?;
        if !has_fault(heap, table, *wanted)? {
            break;
        }
        right = right.saturating_add(1);
    }
    Some(right)
}

// A table of this number of rows is no longer compared pair by pair.
const MANY: usize = 40;

// Rows without a fault. `::/0` and `::80/128` differ and share a number, if both are here.
fn long_table(third: &str) -> Option<[Row; MANY]> {
    let mut table = [row("::/0", 40)?; MANY];
    table[1] = row("::ffff:0:0/96", 35)?;
    table[2] = row(third, 40)?;
    for i in 3..MANY {
        table[i].prefix = Prefix::try_new(i as u128, 128)?;
    }
    Some(table)
}

// Whether the table is refused if the row at this place has the prefix of an earlier row.
fn is_repeat_refused(heap: &Refusing, table: &[Row], earlier: usize, place: usize) -> Option<bool> {
    let mut rows = Vec::from_slice(heap, table).ok()?;
    rows.get_mut(place)?.prefix = table.get(earlier)?.prefix;
    has_fault(heap, &rows, Some(PolicyFault::Repeated(place)))
}

// Whether the table is refused if the row at this place has the precedence of the row `::ffff:0:0/96`.
fn is_sharing_refused(heap: &Refusing, table: &[Row], place: usize) -> Option<bool> {
    let mut rows = Vec::from_slice(heap, table).ok()?;
    rows.get_mut(place)?.precedence = 35;
    let fault = if place == 0 {
        PolicyFault::SharedPrecedence(0, 1)
    } else {
        PolicyFault::SharedPrecedence(1, place)
    };
    has_fault(heap, &rows, Some(fault))
}

// The number of rows of a long table that are refused as required if they repeat the first row, the one before them,
// or a precedence, up to the first wrong one.
fn right_rows(heap: &Refusing, third: &str) -> Option<usize> {
    let table = long_table(third)?;
    let mut right: usize = 0;
    for place in 2..MANY {
        let first = is_repeat_refused(heap, &table, 0, place)?;
        let before = is_repeat_refused(heap, &table, place - 1, place)?;
        if !first || !before || !is_sharing_refused(heap, &table, place)? {
            break;
        }
        right = right.saturating_add(1);
    }
    Some(right)
}

// Whether a long table has no fault, and is refused if its second row repeats the first one, and if the first row has
// the second one's precedence.
fn is_long_table_right(heap: &Refusing, third: &str) -> Option<bool> {
    let table = long_table(third)?;
    let whole = has_fault(heap, &table, None)?;
    let shared = is_sharing_refused(heap, &table, 0)?;
    Some(whole && shared && is_repeat_refused(heap, &table, 0, 1)?)
}

// A table of one row more than the maximum, all rows equal.
fn is_crowd_refused(heap: &Refusing) -> bool {
    match row("::/0", 40) {
        Some(row) => Policy::from_rows(heap, &[row; ROWS + 1]).err() == Some(PolicyFault::Size),
        None => false,
    }
}

#[test]
fn default_table(rt: HostRuntime) {
    let heap = Refusing::new(rt.alloc());
    assert!(rt; is_standard_right(&heap));
}

#[test]
fn table_faults(rt: HostRuntime) {
    let heap = Refusing::new(rt.alloc());
    assert!(rt; right_tables(&heap) == Some(TABLES.len()));
    assert!(rt; is_crowd_refused(&heap));
}

#[test]
fn long_tables(rt: HostRuntime) {
    let heap = Refusing::new(rt.alloc());
    for third in ["::80/128", "::81/128"] {
        assert!(rt; is_long_table_right(&heap, third) == Some(true));
        assert!(rt; right_rows(&heap, third) == Some(MANY - 2));
    }
}
