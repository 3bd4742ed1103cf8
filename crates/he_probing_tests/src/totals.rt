// The counts of several rounds.

use he_addr::Ip;
use he_live::Reason;
use he_probing::{AddressRow, totals_table};
use he_timeline::Outcome;
use std::alloc::AllocGlobal;
use std::test::Fail;

fn row_of(bits: u32, outcome: Option<Outcome>) -> AddressRow {
    AddressRow {
        ip: Ip::V4(bits),
        source: None,
        outcome,
        reason: Reason::Unknown,
        host: None,
    }
}

#[test]
fn totals_by_address(rt: HostRuntime) -> Result<(), Fail> {
    let rows = [
        row_of(0xc000_0201, Some(Outcome::Ok(9))),
        row_of(1, None),
        row_of(0xc000_0201, Some(Outcome::Ok(1))),
        row_of(1, None),
        row_of(0xc000_0201, Some(Outcome::Fail(7))),
    ];
    let text = totals_table(rt.alloc(), &rows)?;
    let wanted = "\
address    tries  connected  failed  no answer  min  median  max
192.0.2.1      3          2       1          0    1       1    9
0.0.0.1        2          0       0          2    -       -    -
";
    assert_eq!(rt; text.as_slice(), wanted.as_bytes());
    Ok(())
}
