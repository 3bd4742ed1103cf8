// /proc/net/fib_trie: the IPv4 routing tables as trees. In the part `Local:` each address of this machine is a leaf,
// `|-- 192.0.2.2`, with the line `/32 host LOCAL` after it.

ghost use Rattle.std.specs.Prelude.{◌≡◌, map, IfOk};
ghost use Rattle.he_host.specs.FibTrie.{trie_line, is_own, step, told, own_from, nowhere, own_addresses};
ghost use Rattle.he_kernel.specs.Lines.{plain};

use he_addr::{Family, Ip, Memory, read_ip_of};
use he_kernel::lines::NumberedLine;
use he_kernel::parts::field;
use std::alloc::Allocator;

/// The meaning of a line.
#[derive(Clone, Copy, Debug, PartialEq, Eq)]
pub enum TrieLine {
    /// The start of a table, and whether it has this machine's own addresses.
    Heading(bool),
    /// A leaf: an address, or the first one of a network; None if it can't be parsed.
    Leaf(Option<Ip>),
    /// The last leaf is an address of this machine.
    Own,
    Other,
}

/// The position in the file: whether in the part `Local:`, and the last leaf.
#[derive(Clone, Copy, Debug, PartialEq, Eq)]
pub struct TrieState {
    pub is_local: bool,
    pub leaf: Option<Ip>,
}

/// An IPv4 address of this machine, with its line number; None if it can't be parsed.
#[derive(Clone, Copy, Debug, PartialEq, Eq)]
pub struct OwnAddress {
    pub line: u64,
    pub ip: Option<Ip>,
}

#[tactic(auto, unfolding(crate::specs::FibTrie::is_own))]
fn is_own(line: &[u8]) -> Option<bool>
    ensures { result ≡ is_own line.now }
{
    let length = field(line, 0)?;
    let scope = field(line, 1)?;
    let kind = field(line, 2)?;
    Some(length == b"/32".as_slice() && scope == b"host".as_slice() && kind == b"LOCAL".as_slice())
}

/// The meaning of a line.
#[tactic(auto, unfolding(crate::specs::FibTrie::trie_line))]
pub fn read_trie_line(line: &[u8]) -> TrieLine
    ensures { result ≡ trie_line line.now }
{
    let Some(first) = field(line, 0) else {
        return TrieLine::Other;
    };
    if first == b"|--".as_slice() {
        return TrieLine::Leaf(read_leaf(line));
    }
    if first == b"Local:".as_slice() {
        return TrieLine::Heading(true);
    }
    if first == b"Main:".as_slice() || first == b"Id".as_slice() {
        return TrieLine::Heading(false);
    }
    if is_own(line) == Some(true) {
        return TrieLine::Own;
    }
    TrieLine::Other
}

#[tactic(auto, unfolding(crate::specs::FibTrie::leaf_of))]
fn read_leaf(line: &[u8]) -> Option<Ip>
    ensures { result ≡ Rattle.he_host.specs.FibTrie.leaf_of line.now }
{
    read_ip_of(Family::V4, field(line, 1)?)
}

impl TrieState {
    fn step(self, line: TrieLine) -> TrieState
        ensures { result ≡ step self line }
    {
        match line {
            TrieLine::Heading(is_local) => TrieState {
                is_local,
                leaf: None,
            },
            TrieLine::Leaf(leaf) => TrieState {
                is_local: self.is_local,
                leaf,
            },
            TrieLine::Own | TrieLine::Other => self,
        }
    }

    fn tells(self, line: TrieLine) -> bool
        ensures { result ≡ told self line }
    {
        match line {
            TrieLine::Own => self.is_local,
            _ => false,
        }
    }
}

/// This machine's addresses in all lines.
///
/// # Errors
///
/// [`Memory`] if an allocation fails.
#[tactic(auto, unfolding(crate::specs::FibTrie::own_addresses))]
pub fn read_own_addresses<A: Allocator + Copy>(
    alloc: A,
    lines: &[NumberedLine<'_>],
) -> Result<Vec<OwnAddress, A>, Memory>
    ensures { IfOk result (λ found. found.items ≡ own_addresses (map plain lines.now)) }
{
    let mut found = Vec::new(alloc);
    let mut walk = TrieState {
        is_local: false,
        leaf: None,
    };
    for line in lines {
        let says = read_trie_line(line.text);
        if walk.tells(says) {
            found.push(OwnAddress {
                line: line.number,
                ip: walk.leaf,
            })?;
        }
        walk = walk.step(says);
    }
    Ok(found)
}
