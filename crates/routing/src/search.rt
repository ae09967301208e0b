ghost use Rattle.std.specs.Prelude.{◌≡◌, ◌<◌, ◌==◌, length, position};
ghost use Rattle.std.specs.List.{list_any, range_with_len};
ghost use Rattle.routing.specs.Tree.{bad_link, repeated_at};

use crate::link::TreeLink;

/// The first record with a number out of range, or with the base station or its own parent as child.
pub(crate) fn first_bad(n: u8, tree: &[TreeLink]) -> Option<usize>
    ensures { result ≡ position (bad_link n) tree.now }
{
    tree.iter().position(|link| link.is_bad(n))
}

/// Whether one of the records has the child.
fn has_child(links: &[TreeLink], child: u8) -> bool
    ensures { result ≡ list_any (λ l. l.child == child) links.now }
{
    links.iter().any(|link| link.child == child)
}

/// Whether the child of the record at k has an earlier record.
fn is_repeated(tree: &[TreeLink], k: usize) -> bool
    requires { k < length tree.now }
    ensures { result ≡ repeated_at tree.now k }
{
    let child = tree[k].child;
    has_child(&tree[0..k], child)
}

/// The first record whose child has an earlier one.
pub(crate) fn first_repeated(tree: &[TreeLink]) -> Option<usize>
    ensures { result ≡ position (repeated_at tree.now) (range_with_len 0 (length tree.now)) }
{
    (0..tree.len()).position(|k| is_repeated(tree, k))
}
