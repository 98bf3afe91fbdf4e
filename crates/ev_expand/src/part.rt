//! What a surface node expands to.

use def_kernel::Node;
use ev_base::Seq;

/// The expansion of a surface node. That of a block is what it is as the block of a form; as an expression it is hidden
/// besides.
#[derive(Drop)]
pub struct Part {
    pub piece: Seq<Node>,
    pub is_block: bool,
}
