ghost use Rattle.trie.specs.Well.{NodeLaws};

// The nodes in use are one for each route of the plane and one for each branch, and no other.
pub fn node_laws() -> u8
    ensures { NodeLaws }
{
    0
}
