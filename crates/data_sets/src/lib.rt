//! Sets of heads, as document 01's first word has one: "one bit per correct head, bit 0 for head 0".
#![tactic(auto)]

ghost use Rattle.std.specs.Prelude.{◌≡◌};
ghost use Rattle.data_sets.specs.Sets.{with_head, has_all};

/// The set with head q in it.
pub fn with_head(m: u16, q: u8) -> u16
    ensures { result ≡ with_head m q }
{
    m | 1 << (q % 16)
}

/// Whether these heads are all in the set.
pub fn has_all(m: u16, heads: u16) -> bool
    ensures { result ≡ has_all m heads }
{
    m & heads == heads
}
