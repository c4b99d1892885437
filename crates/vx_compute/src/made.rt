use vx_answers::Finding;
use vx_node::NodeId;

/// What a computation came to.
#[derive(Drop)]
pub enum Made {
    Found(Finding),
    /// The asker said that the node is unclean.
    Unclean(NodeId),
    /// The answer of the node is of another program than those before it.
    Mixed(NodeId),
    OutOfMemory,
}
