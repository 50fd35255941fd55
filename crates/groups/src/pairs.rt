// The rules of the pairs of a group.
ghost use Rattle.std.specs.Prelude.{◌≡◌, ◌<◌, ◌≤◌, [], slice_index_or};
ghost use Rattle.layers.specs.Apart.{not_together};
ghost use Rattle.layers.specs.RowViews.{items_of};
ghost use Rattle.groups.specs.Groups.{pairs_among, pair_rules};

use layers::row::Row;

pub fn pair_count(n: usize) -> usize
    requires { n ≤ 16 }
    ensures value { result ≡ pairs_among n }
    ensures few { result ≤ 128 }
{
    (n * n - n) / 2
}

// The literal at place j of the rule that options a and b are not both on.
// 255 and no Option: it is handed on as `Case::literal` answers it.
// `not_both_literal` of layers has much the same line: shared, it would be public, and its `requires` with it.
fn not_together_literal(a: u8, b: u8, j: usize) -> u8
    requires first { a < 128 }
    requires second { b < 128 }
    ensures { result ≡ slice_index_or (not_together a b) j 255 }
{
    [2 * a + 1, 2 * b + 1].get(j).copied().unwrap_or(255)
}

// The literal at place j of the rule of pair k of the group; 255 where there is none.
// 255 and no Option: it is handed on as `Case::literal` answers it.
// It counts down: the pairs are counted and not listed, so a chain would have to make each of them, and is no plainer.
pub fn pair_literal(group: &Row, k: usize, j: usize) -> u8
    ensures { result ≡ slice_index_or (slice_index_or (pair_rules (items_of group.now)) k []) j 255 }
{
    let mut rest = group.items();
    let mut left = k;
    while let Some((first, after)) = rest.split_first() {
        if left < after.len() {
            return not_together_literal(*first, after[left], j);
        }
        left -= after.len();
        rest = after;
    }
    255
}
