//! What a node says of itself.
ghost use Rattle.std.specs.Prelude.{◌≡◌};
ghost use Rattle.fh_model.specs.Nodes.{id_of, is_file, kind_tag, mounted_at, mounts};

use fh_model::Node;

pub(crate) fn id_of(node: &Node) -> u64
    ensures { result ≡ id_of node.now }
{
    match node {
        Node::File(meta) => meta.id,
        Node::Folder { id } => *id,
        Node::Mount { id, .. } => *id,
    }
}

/// The namespace that is mounted there.
pub(crate) fn mounted_at(node: &Node) -> Option<u64>
    ensures { result ≡ mounted_at node.now }
{
    match node {
        Node::File(_) => None,
        Node::Folder { .. } => None,
        Node::Mount { ns, .. } => Some(*ns),
    }
}

/// Whether it is a mount point of the namespace.
pub(crate) fn mounts(number: u64, node: &Node) -> bool
    ensures { result ≡ mounts number node.now }
{
    match node {
        Node::File(_) => false,
        Node::Folder { .. } => false,
        Node::Mount { ns, .. } => *ns == number,
    }
}

pub(crate) fn is_file(node: &Node) -> bool
    ensures { result ≡ is_file node.now }
{
    match node {
        Node::File(_) => true,
        Node::Folder { .. } => false,
        Node::Mount { .. } => false,
    }
}

/// The last tag of the refusal to write where it stands.
pub(crate) fn kind_tag(node: &Node) -> &'static str
    ensures { result.now ≡ kind_tag node.now }
{
    match node {
        Node::File(_) => "file",
        Node::Folder { .. } => "folder",
        Node::Mount { .. } => "folder",
    }
}
