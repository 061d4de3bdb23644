// The extended entries of a table that say something of a bus by itself: refusal 18, but for the links (crate parents).
//
// Promised: `wrong_mappings` and `wrong_modifiers` answer whether some 128 or 130 entry is `wrong_mapping_in` or
// `wrong_modifier_in`, of any bytes and any roll. The definitions stand in specs/Spaces.antt. Where the roll has the listed
// buses they are the rules of mps, entry by entry: proofs/Laws.antt.
//
// Each entry's tests are all made, by `|`: in a table that is accepted none of them is so, and nothing would be saved by
// stopping at the first.
#![tactic(auto)]

ghost use Rattle.std.specs.Prelude.{◌≡◌, ◌+◌, length, nat_lt};
ghost use Rattle.mps.specs.Words.{any};
ghost use Rattle.mps.specs.Layout.{space_end, mapping_size, link_size};
ghost use Rattle.mps.specs.Sections.{rows};
ghost use Rattle.spaces.specs.Spaces.{wrong_mapping_in, wrong_modifier_in};

use mps::layout;

// Whether a range ends past 2^64. The sum wraps from 2^64 on, and a range that ends just there, where it wraps to 0, is
// good.
fn past_end(base: u64, length: u64) -> bool
    ensures { result ≡ nat_lt space_end (base + length) }
{
    let (end, wrapped) = base.overflowing_add(length);
    wrapped & (0 < end)
}

#[tactic(auto, unfolding(crate::specs::Spaces::wrong_mapping_in))]
fn wrong_mapping(e: &[u8], roll: &[u8; 256]) -> bool
    requires { length e.now ≡ mapping_size }
    ensures { result ≡ wrong_mapping_in roll.now e.now }
{
    let base = numbers::le64(e, layout::SPACE_BASE);
    let length = numbers::le64(e, layout::SPACE_LENGTH);
    !roll::has(roll, e[layout::EXTENDED_BUS], roll::BUS)
        | (layout::SPACE_KIND_MOST < e[layout::SPACE_KIND])
        | past_end(base, length)
}

// Whether some entry is wrong, of 128 entries of 20 bytes each, one behind the other.
pub fn wrong_mappings(s: &[u8], roll: &[u8; 256]) -> bool
    ensures { result ≡ any (wrong_mapping_in roll.now) (rows mapping_size s.now) }
{
    s.chunks_exact(layout::MAPPING_SIZE)
        .any(|e| wrong_mapping(e, roll))
}

#[tactic(auto, unfolding(crate::specs::Spaces::wrong_modifier_in))]
fn wrong_modifier(e: &[u8], roll: &[u8; 256]) -> bool
    requires { length e.now ≡ link_size }
    ensures { result ≡ wrong_modifier_in roll.now e.now }
{
    let list = numbers::le32(e, layout::RANGE_LIST);
    !roll::has(roll, e[layout::EXTENDED_BUS], roll::BUS) | (layout::RANGE_LIST_MOST < list)
}

// Whether some entry is wrong, of 130 entries of 8 bytes each, one behind the other.
pub fn wrong_modifiers(s: &[u8], roll: &[u8; 256]) -> bool
    ensures { result ≡ any (wrong_modifier_in roll.now) (rows link_size s.now) }
{
    s.chunks_exact(layout::LINK_SIZE)
        .any(|e| wrong_modifier(e, roll))
}
