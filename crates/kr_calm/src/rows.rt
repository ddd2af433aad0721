//! What is asked of the rows of the table of mounts.
ghost use Rattle.std.specs.Prelude.{◌≡◌};
ghost use Rattle.std.specs.List.{list_any};
ghost use Rattle.kr_seen.specs.kr_view.Rows.{row_told};
ghost use Rattle.kr_seen.specs.kr_view.View.{Row, shown};
ghost use Rattle.kr_calm.specs.Questions.{HasRealPoint, HaveFewPoints, row_answers};
ghost use Rattle.kr_calm.specs.Rules.{differ, is_above_point, is_above_row, is_below_point, is_between, is_named, serves_row};

use crate::above::is_at_or_below;
use kr_seen::below::{Ino, MountRow, Places, Tree};

/// A question about a row.
#[derive(Clone, Copy)]
pub(crate) enum RowQuestion<'a> {
    /// Whether one of two directories lies below its source and the other doesn't, or so of its mount point.
    Between(Ino, Ino),
    /// Whether its source was found at an entry.
    Named(Ino, &'a [u8]),
    /// Whether a directory stands above its source or its mount point.
    Above(Ino),
    /// Whether a directory has to give search for its sake.
    Serves(Ino),
}

/// Whether a directory stands above a row's mount point. The root's row has none, and a directory 0 in its place.
fn is_above_point(tree: &Tree, ino: Ino, row: MountRow<'_>) -> bool
    ensures { (r : Row) → row_told row.entry ≡ shown r → HasRealPoint r → result ≡ is_above_point tree.now ino r }
{
    row.point_dir != 0 && is_at_or_below(tree, ino, row.point_dir)
}

/// Whether a directory lies below a row's mount point.
fn is_below_point(tree: &Tree, dir: Ino, row: MountRow<'_>) -> bool
    ensures { (r : Row) → row_told row.entry ≡ shown r → HasRealPoint r → result ≡ is_below_point tree.now dir r }
{
    if row.point_dir == 0 {
        return false;
    }
    match tree.entry(row.point_dir, row.point_name) {
        Some(point) => is_at_or_below(tree, point, dir),
        None => false,
    }
}

/// Whether one of two holds and the other doesn't.
fn differ(one: bool, other: bool) -> bool
    ensures { result ≡ differ one other }
{
    if one { !other } else { other }
}

/// Whether one of two directories lies below a row's source or mount point, and the other doesn't.
fn is_between(tree: &Tree, one: Ino, other: Ino, row: MountRow<'_>) -> bool
    ensures { (r : Row) → row_told row.entry ≡ shown r → HasRealPoint r → result ≡ is_between tree.now one other r }
{
    let one_source = is_at_or_below(tree, row.source, one);
    let other_source = is_at_or_below(tree, row.source, other);
    let one_point = is_below_point(tree, one, row);
    let other_point = is_below_point(tree, other, row);
    differ(one_source, other_source) || differ(one_point, other_point)
}

/// Whether a row's source was found at an entry.
fn is_named(dir: Ino, name: &[u8], row: MountRow<'_>) -> bool
    ensures { (r : Row) → row_told row.entry ≡ shown r → result ≡ is_named dir name.now r }
{
    row.source_dir == dir && row.source_name == name
}

/// Whether a directory stands above a row's source or its mount point.
fn is_above(tree: &Tree, ino: Ino, row: MountRow<'_>) -> bool
    ensures { (r : Row) → row_told row.entry ≡ shown r → HasRealPoint r → result ≡ is_above_row tree.now ino r }
{
    is_at_or_below(tree, ino, row.source_dir) || is_above_point(tree, ino, row)
}

/// Whether a directory has to give search for the sake of a row.
fn serves(tree: &Tree, ino: Ino, row: MountRow<'_>) -> bool
    ensures { (r : Row) → row_told row.entry ≡ shown r → HasRealPoint r → result ≡ serves_row tree.now ino r }
{
    let is_above_source = is_at_or_below(tree, ino, row.source)
        || is_at_or_below(tree, ino, row.source_dir);
    let is_above_mount = tree.is_directory(row.source) && is_above_point(tree, ino, row);
    is_above_source || is_above_mount
}

/// What a row answers.
fn row_answers(tree: &Tree, row: MountRow<'_>, question: RowQuestion<'_>) -> bool
    ensures { (r : Row) → row_told row.entry ≡ shown r → HasRealPoint r → result ≡ row_answers question.entry tree.now r }
{
    match question {
        RowQuestion::Between(one, other) => is_between(tree, one, other, row),
        RowQuestion::Named(dir, name) => is_named(dir, name, row),
        RowQuestion::Above(ino) => is_above(tree, ino, row),
        RowQuestion::Serves(ino) => serves(tree, ino, row),
    }
}

/// Whether a row answers yes.
pub(crate) fn any_row<P: Places>(places: &P, tree: &Tree, question: RowQuestion<'_>) -> bool
    requires { HaveFewPoints (P.mounts places.now) }
    ensures { result ≡ list_any (row_answers question.entry tree.now) (P.mounts places.now) }
{
    let mut k = 0;
    while let Some(row) = places.row(k) {
        if row_answers(tree, row, question) {
            return true;
        }
        k += 1;
    }
    false
}
