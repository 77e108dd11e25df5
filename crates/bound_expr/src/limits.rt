//! The limits of bounds: their greatest constant, number of nodes and number of levels.

ghost use Rattle.std.specs.Prelude.{◌≡◌};
ghost use Rattle.bound_expr.specs.Limits.{constant_limit, cap, node_limit, depth_limit};

/// The maximum constant of a bound: 2^127-1.
pub const CONSTANT_LIMIT: u128 = 0x7fff_ffff_ffff_ffff_ffff_ffff_ffff_ffff;

/// The number after it, 2^127; where values are capped, it represents every greater number as well.
pub const CAP: u128 = 0x8000_0000_0000_0000_0000_0000_0000_0000;

/// The maximum number of nodes of a bound.
pub const NODE_LIMIT: u64 = 4096;

/// The maximum number of levels of a bound.
pub const DEPTH_LIMIT: u32 = 200;

/// The law that the constants of the code are the limits of the definitions. It does nothing.
pub fn limits_are_as_defined()
    ensures constants { CONSTANT_LIMIT ≡ constant_limit }
    ensures capped { CAP ≡ cap }
    ensures nodes { NODE_LIMIT ≡ node_limit }
    ensures depth { DEPTH_LIMIT ≡ depth_limit }
{}
