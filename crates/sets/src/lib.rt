// Sets of tags as 64-bit numbers, tag n being bit n: membership, union, intersection, difference, inclusion.
#![tactic(auto)]

ghost use Rattle.std.specs.Prelude.{◌≡◌};
ghost use Rattle.sets.specs.Bytes.{in_bytes, value};
ghost use Rattle.sets.specs.Sets.{has, union, meet, without, within, only, Laws};

// Whether the tag is in the set. A number above 63 is no tag, so it is in none.
#[tactic(auto, unfolding(crate::specs::Sets::has))]
pub fn has(set: u64, tag: u8) -> bool
    ensures { result ≡ has tag set }
{
    tag < 64 && (set >> tag) % 2 == 1
}

pub fn union(a: u64, b: u64) -> u64
    ensures { result ≡ union a b }
{
    a | b
}

pub fn meet(a: u64, b: u64) -> u64
    ensures { result ≡ meet a b }
{
    a & b
}

#[tactic(auto, unfolding(crate::specs::Sets::without))]
pub fn without(a: u64, b: u64) -> u64
    ensures { result ≡ without a b }
{
    a ^ (a & b)
}

// Whether every tag of a is in b.
#[tactic(auto, unfolding(crate::specs::Sets::within))]
pub fn within(a: u64, b: u64) -> bool
    ensures { result ≡ within a b }
{
    a == a & b
}

// The set of one tag; the empty set for a number above 63, which is no tag.
#[tactic(auto, unfolding(crate::specs::Sets::only))]
pub fn only(tag: u8) -> u64
    ensures { result ≡ only tag }
{
    if tag < 64 { 1 << tag } else { 0 }
}

// The set as eight bytes, the high byte first.
pub fn to_bytes(set: u64) -> [u8; 8]
    ensures bytes { result ≡ in_bytes 8 set }
    ensures back { value (in_bytes 8 set) ≡ set }
{
    set.to_be_bytes()
}

#[tactic(auto, using(crate::proofs::Bytes::eight))]
pub fn from_bytes(bytes: [u8; 8]) -> u64
    ensures { result ≡ value bytes }
{
    u64::from_be_bytes(bytes)
}

// What the crates above use of these functions: the laws, and not the texts of the definitions.
#[tactic(auto, using(crate::proofs::Bits::laws))]
pub fn sets_keep_their_laws()
    ensures { Laws }
{}
