// The walk over a table's extended entries: of refusal 13 what the entries decide, and where the entries of each type stand.
//
// Promised: `extended` answers `extended_sections` of any bytes, in one pass. The definition stands in specs/Extended.antt, which
// cites mps for the rule and the places. What callers may use of an accepted part stands in proofs/Laws.antt: its sections are
// whole entries of one type and nothing else, and one behind the other they are all entries up to those that are skipped.
//
// The code goes over the runs of the three known types as the walk over the base does (`sections`), and compares the types of
// those behind them only.
#![tactic(auto)]

ghost use Rattle.std.specs.Prelude.{◌≡◌, ◌≤◌, length, drop};
ghost use Rattle.mps.specs.Layout.{mapping_type, modifier_type, extended_entry_length};
ghost use Rattle.mps.specs.Table.{extended_from};
ghost use Rattle.runs.specs.Runs.{Ran};
ghost use Rattle.extension.specs.Extended.{extended_sections, extended_entries_in, extended_own};

use mps::layout;

// Where the entries of each type begin, from the first extended byte; mappings begin there.
#[derive(Clone, Copy)]
pub struct ExtendedSections {
    pub links: usize,
    pub modifiers: usize,
    pub others: usize,
}

// The place behind the whole extended entries of one known type that stand from `at` on and say the length of their type.
// (One function with `run` of sections would take the test as a closure, with a contract about it: no plainer.)
fn run_of(s: &[u8], at: usize, kind: u8) -> usize
    requires at_in_bounds { at ≤ length s.now }
    requires mapping_type_le_kind { mapping_type ≤ kind }
    requires kind_le_modifier_type { kind ≤ modifier_type }
    ensures { Ran extended_own kind extended_entry_length s.now at result }
{
    let size = runs::size_of(kind - layout::MAPPING_TYPE);
    let first = usize::from(kind) + 256 * size;
    // A count of the entries that lead, by `take_while`, took longer (`sections`).
    let mut place = at;
    for e in s[at..].chunks_exact(size) {
        // Type and length as one number: one load and one test an entry.
        if usize::from(numbers::le16(&e[..layout::LEAST_LENGTH], 0)) != first {
            return place;
        }
        place += size;
    }
    place
}

// Whether an entry is faulty among those from `at` on, which are behind the known types; a byte alone is one.
#[tactic(auto, using(crate::proofs::ExtendedEntries::rest_steps))]
fn others(s: &[u8], at: usize) -> bool
    requires { at ≤ length s.now }
    ensures { result ≡ extended_from 131 (extended_entries_in (drop at s.now)) }
{
    let mut rest = &s[at..];
    let mut before = layout::OTHER_TYPES;
    while let [kind, size, ..] = *rest {
        let size = usize::from(size);
        if size < layout::LEAST_LENGTH {
            return true;
        }
        if rest.len() < size {
            return true;
        }
        if kind < before {
            return true;
        }
        before = kind;
        rest = &rest[size..];
    }
    !rest.is_empty()
}

// `s` are the extended bytes. None where an entry is faulty: one refusal stands for all that can be wrong with them.
pub fn extended(s: &[u8]) -> Option<ExtendedSections>
    ensures { result ≡ extended_sections s.now }
{
    let links = run_of(s, 0, layout::MAPPING_TYPE);
    let modifiers = run_of(s, links, layout::HIERARCHY_TYPE);
    let end = run_of(s, modifiers, layout::MODIFIER_TYPE);
    if others(s, end) {
        return None;
    }
    Some(ExtendedSections {
        links,
        modifiers,
        others: end,
    })
}
