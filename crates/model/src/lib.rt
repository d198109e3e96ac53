// The meaning of tables and stacks of layers, as definitions in specs/; each law about them stands on the contract of a function here.
#![tactic(auto)]

ghost use Rattle.model.specs.Maps.{MapLaws};
ghost use Rattle.model.specs.Longest.{LongestLaws};
ghost use Rattle.model.specs.Room.{RoomLaws};

// Prefix maps: what they hold after a put or a removal, and that maps which hold the same are equal.
pub fn prefix_maps<V>() -> bool
    ensures { MapLaws V }
{
    true
}

// The answer of a lookup is the longest match, and the only value that may be called so.
pub fn longest_match<V>() -> bool
    ensures { LongestLaws V }
{
    true
}

// Branches are listed exactly, nodes are counted exactly, and both room rules keep the room law.
pub fn room_rules<V>() -> bool
    ensures { RoomLaws V }
{
    true
}
