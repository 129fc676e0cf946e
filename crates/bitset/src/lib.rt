// Masks of up to six conditions, and of up to eight nodes: the members of a mask lowest first, their number, and a mask
// built from its highest bit down; and how many combinations there are.
// Document 01: "pending broadcasts as mask: trailing zeros gives the next, ones gives their number"
#![tactic(auto)]

ghost use Rattle.std.specs.Prelude.{◌≡◌, ◌∷◌, ◌+◌, ◌*◌, ◌^◌, ◌≤◌, ◌<◌, length, drop};
ghost use Rattle.limits.specs.Limits.{CONDITIONS};
ghost use Rattle.lists.specs.Lists.{null};
ghost use Rattle.bitset.specs.Masks.{members, nodes, under};

// Whether a mask has no members.
pub fn is_empty(mask: u32) -> bool
    requires { mask < 64 }
    ensures { result ≡ null (members mask) }
{
    mask == 0
}

// The lowest member of a mask.
pub fn lowest(mask: u32) -> u32
    requires { (0 < mask) × (mask < 64) }
    ensures { members mask ≡ result ∷ drop 1 (members mask) }
{
    u32::trailing_zeros(mask)
}

// How many members a mask has.
pub fn how_many(mask: u32) -> u32
    requires { mask < 64 }
    ensures { result ≡ length (members mask) }
{
    u32::count_ones(mask)
}

// A mask without its lowest member.
pub fn without_lowest(mask: u32) -> u32
    requires { (0 < mask) × (mask < 64) }
    ensures { (members result ≡ drop 1 (members mask)) × (result < mask) }
{
    mask & (mask - 1)
}

// A mask, of conditions or of nodes, with one bit more below its lowest.
pub fn with_bit(mask: u32, set: bool) -> u32
    requires { mask < 128 }
    ensures { (result ≡ under set mask) × (result ≤ 2 * mask + 1) }
{
    mask * 2 + u32::from(set)
}

// The lowest node of a mask of nodes. One function for this and `lowest` would be no plainer: its contract would name
// the mask's width, and each caller would show it; the same of `without_lowest_node`.
pub fn lowest_node(those: u32) -> u32
    requires { (0 < those) × (those < 256) }
    ensures { nodes those ≡ result ∷ drop 1 (nodes those) }
{
    u32::trailing_zeros(those)
}

// A mask of nodes without its lowest node.
pub fn without_lowest_node(those: u32) -> u32
    requires { (0 < those) × (those < 256) }
    ensures { (nodes result ≡ drop 1 (nodes those)) × (result < those) }
{
    those & (those - 1)
}

// How many combinations some conditions have.
pub fn combinations_of(conditions: usize) -> u32
    requires { conditions ≤ CONDITIONS }
    ensures { (result ≡ 2 ^ conditions) × (result ≤ 64) }
{
    1 << conditions
}
