//! Lists of a forest: what edits make of them, that earlier ones stay, and what they cost.

ghost use Rattle.std.specs.Prelude.{IfOk};
ghost use Rattle.forest.specs.View.{Holds, Keeps};

use forest::{Forest, Tree};
use std::alloc::{AllocError, Global};
use std::test::Fail;

/// An edit of a list, by its place.
#[derive(Clone, Copy, Debug)]
enum Edit {
    Set(usize, u32),
    Insert(usize, u32),
    Remove(usize),
}

// the list after an edit, or the same one where it has no such place
fn edited(forest: &mut Forest<u32>, tree: Tree, edit: Edit) -> Result<Tree, AllocError>
    requires { Holds forest.old tree }
    ensures keeps { Keeps forest.old forest.new }
    ensures held { IfOk result (λ made. Holds forest.new made) }
{
    let len = forest.len(tree);
    match edit {
        Edit::Set(place, item) if place < len => forest.set(tree, place, item),
        Edit::Insert(place, item) if place <= len => forest.insert(tree, place, item),
        Edit::Remove(place) if place < len => forest.remove(tree, place),
        _ => Ok(tree),
    }
}

// the same of a row of items
fn edit_row(row: &mut Vec<u32>, edit: Edit) -> Result<(), AllocError> {
    match edit {
        Edit::Set(place, item) if place < row.len() => row[place] = item,
        Edit::Insert(place, item) if place <= row.len() => row.insert(place, item)?,
        Edit::Remove(place) if place < row.len() => {
            row.remove(place);
        }
        _ => {}
    }
    Ok(())
}

// whether a list has these items, read in a row and one by one
fn has(alloc: Global, forest: &Forest<u32>, tree: Tree, items: &[u32]) -> Result<bool, AllocError>
    requires { Holds forest.now tree }
{
    let mut row = Vec::new(alloc);
    forest.push_all(tree, &mut row)?;
    if row.as_slice() != items {
        return Ok(false);
    }
    if forest.len(tree) != items.len() {
        return Ok(false);
    }
    for (place, item) in items.iter().enumerate() {
        if place >= forest.len(tree) {
            return Ok(false);
        }
        if forest.get(tree, place) != *item {
            return Ok(false);
        }
    }
    Ok(true)
}

// how many nodes the longest way down passes
fn depth(forest: &Forest<u32>, tree: Tree) -> usize
    requires { Holds forest.now tree }
{
    match forest.top(tree) {
        None => 0,
        Some(top) => depth(forest, top.left)
            .max(depth(forest, top.right))
            .saturating_add(1),
    }
}

static EDITS: [(Edit, &[u32]); 16] = [
    // An edit behind the end changes nothing.
    (Edit::Set(0, 9), &[]),
    (Edit::Remove(0), &[]),
    (Edit::Insert(1, 9), &[]),
    // Into an empty list, behind it, before it and between.
    (Edit::Insert(0, 5), &[5]),
    (Edit::Insert(1, 7), &[5, 7]),
    (Edit::Insert(0, 3), &[3, 5, 7]),
    (Edit::Insert(2, 6), &[3, 5, 6, 7]),
    (Edit::Insert(4, 8), &[3, 5, 6, 7, 8]),
    (Edit::Insert(6, 9), &[3, 5, 6, 7, 8]),
    // The first, the last and one between.
    (Edit::Set(0, 30), &[30, 5, 6, 7, 8]),
    (Edit::Set(4, 80), &[30, 5, 6, 7, 80]),
    (Edit::Set(2, 60), &[30, 5, 60, 7, 80]),
    (Edit::Remove(4), &[30, 5, 60, 7]),
    (Edit::Remove(1), &[30, 60, 7]),
    (Edit::Remove(0), &[60, 7]),
    (Edit::Remove(2), &[60, 7]),
];

#[test]
fn edits_go_to_their_places(rt: HostRuntime) -> Result<(), Fail> {
    let mut forest = Forest::new(rt.alloc());
    let mut tree = forest.empty();
    for (at, (edit, items)) in EDITS.iter().enumerate() {
        tree = edited(&mut forest, tree, *edit)?;
        let as_worked = has(rt.alloc(), &forest, tree, items)?;
        assert!(rt; as_worked, "edit {}", at);
    }
    Ok(())
}

#[test]
fn an_earlier_list_stays(rt: HostRuntime) -> Result<(), Fail> {
    let mut forest = Forest::new(rt.alloc());
    let first = forest.collect(&[1, 2, 3, 4, 5, 6, 7])?;
    let set = edited(&mut forest, first, Edit::Set(3, 40))?;
    let longer = edited(&mut forest, set, Edit::Insert(7, 8))?;
    let shorter = edited(&mut forest, first, Edit::Remove(0))?;
    let all = has(rt.alloc(), &forest, first, &[1, 2, 3, 4, 5, 6, 7])?
        && has(rt.alloc(), &forest, set, &[1, 2, 3, 40, 5, 6, 7])?
        && has(rt.alloc(), &forest, longer, &[1, 2, 3, 40, 5, 6, 7, 8])?
        && has(rt.alloc(), &forest, shorter, &[2, 3, 4, 5, 6, 7])?
        && has(rt.alloc(), &forest, forest.empty(), &[])?;
    assert!(rt; all);
    // Seven nodes for the seven items, which a tree of three levels has. The item in the middle is its root's.
    assert_eq!(rt; first.number(), 7);
    assert_eq!(rt; set.number(), 8);
    assert_eq!(rt; depth(&forest, first), 3);
    Ok(())
}

// the next of a row of numbers that look random
fn next(seed: u32) -> u32 {
    seed.wrapping_mul(1_664_525).wrapping_add(1_013_904_223)
}

// an edit at one of the first places, of which two thirds put an item in while a list is short
fn random_edit(seed: u32, len: usize) -> Edit {
    let place = (seed >> 8) as usize % len.saturating_add(1);
    match (seed >> 4) % 6 {
        0 | 1 => Edit::Remove(place),
        2 => Edit::Set(place, seed),
        _ if len > 100 => Edit::Remove(place),
        _ => Edit::Insert(place, seed),
    }
}

#[test]
fn a_thousand_edits_are_as_those_of_a_row(rt: HostRuntime) -> Result<(), Fail> {
    let mut forest = Forest::new(rt.alloc());
    let mut tree = forest.empty();
    let mut row = Vec::new(rt.alloc());
    let mut seed = 1;
    for at in 0..1000 {
        seed = next(seed);
        let edit = random_edit(seed, row.len());
        let made = edited(&mut forest, tree, edit)?;
        let stayed = has(rt.alloc(), &forest, tree, &row)?;
        assert!(rt; stayed, "before edit {}", at);
        edit_row(&mut row, edit)?;
        let same = has(rt.alloc(), &forest, made, &row)?;
        assert!(rt; same, "edit {}", at);
        tree = made;
    }
    let again = forest.collect(&row)?;
    let collected = has(rt.alloc(), &forest, again, &row)?;
    assert!(rt; collected);
    Ok(())
}

/// Where the edits of a long run go.
#[derive(Clone, Copy, Debug)]
enum Way {
    Front,
    End,
    Middle,
    Anywhere,
}

fn place(way: Way, seed: u32, len: usize) -> usize {
    match way {
        Way::Front => 0,
        Way::End => len,
        Way::Middle => len / 2,
        Way::Anywhere => seed as usize % len.saturating_add(1),
    }
}

// A list of so many items put in that way.
fn filled(forest: &mut Forest<u32>, way: Way, count: u32) -> Result<Tree, AllocError>
    ensures held { IfOk result (λ made. Holds forest.new made) }
{
    let mut tree = forest.empty();
    let mut seed = 1;
    for item in 0..count {
        seed = next(seed);
        let place = place(way, seed, forest.len(tree));
        tree = edited(forest, tree, Edit::Insert(place, item))?;
    }
    Ok(tree)
}

// The list with so many items taken out that way.
fn thinned(forest: &mut Forest<u32>, tree: Tree, way: Way, count: u32) -> Result<Tree, AllocError>
    requires { Holds forest.old tree }
    ensures held { IfOk result (λ made. Holds forest.new made) }
{
    let mut tree = tree;
    let mut seed = 7;
    for _ in 0..count {
        seed = next(seed);
        let last = forest.len(tree).saturating_sub(1);
        let place = place(way, seed, last);
        tree = edited(forest, tree, Edit::Remove(place))?;
    }
    Ok(tree)
}

#[test]
fn trees_stay_flat(rt: HostRuntime) -> Result<(), Fail> {
    for way in [Way::Front, Way::End, Way::Middle, Way::Anywhere] {
        let mut forest = Forest::new(rt.alloc());
        let tree = filled(&mut forest, way, 100_000)?;
        // 2 log2 of 100,000 is 33.2, and an edit adds no more nodes than that.
        assert!(rt; depth(&forest, tree) <= 33, "{way:?}");
        assert!(rt; tree.number() <= 3_300_000, "{way:?}");
        let tree = thinned(&mut forest, tree, way, 99_000)?;
        assert_eq!(rt; forest.len(tree), 1000);
        // 2 log2 of 1,000 is 19.9.
        assert!(rt; depth(&forest, tree) <= 19, "{way:?}");
        assert!(rt; tree.number() <= 6_600_000, "{way:?}");
    }
    Ok(())
}
