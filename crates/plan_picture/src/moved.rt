//! The activities that another aircraft flies than their home, and how many they are, as it is told below the title.

ghost use Rattle.std.specs.Prelude.{◌≡◌, ◌<◌, ◌+◌, ◌^◌, ◌++◌, IfOk, OnOk, length};
ghost use Rattle.plan_homes.specs.Moves.{home_of, is_moved, moves, moves_in};
ghost use Rattle.plan_picture.specs.Moved.{marked_by, moved_from, moves_line, moves_lines};

use crate::fixed::{fixed_line, moved_style};
use crate::view::View;
use std::alloc::Global;
use tail_book::{Memory, Route};
use tail_text::Line;

// The home of an activity.
fn home_of(homes: &[Option<u32>], a: u32) -> Option<u32>
    ensures { result ≡ home_of homes.now a }
{
    match homes.get(a as usize) {
        Some(home) => *home,
        None => None,
    }
}

// Whether an aircraft moves an activity by flying it: its home is another aircraft.
fn is_moved(homes: &[Option<u32>], k: u32, a: u32) -> bool
    ensures { result ≡ is_moved homes.now k a }
{
    match home_of(homes, a) {
        Some(home) => home != k,
        None => false,
    }
}

/// The home that an activity left, where aircraft `k` moves it.
pub fn moved_from(homes: &[Option<u32>], k: u32, a: u32) -> Option<u32>
    ensures { result ≡ moved_from homes.now k a }
{
    if is_moved(homes, k, a) {
        home_of(homes, a)
    } else {
        None
    }
}

// Adds the activities of its route that an aircraft moves.
fn add_moved(
    homes: &[Option<u32>],
    k: u32,
    route: &[u32],
    list: &mut Vec<u32>,
) -> Result<(), Memory>
    ensures { OnOk result (length list.new.items ≡ length list.old.items + moves_in homes.now k route.now) }
{
    for b in route {
        if is_moved(homes, k, *b) {
            list.push(*b)?;
        }
    }
    Ok(())
}

// The activities that the aircraft of a plan move. They are listed to be counted, since no count of what lies in memory
// goes past what a number holds.
fn moved(alloc: Global, homes: &[Option<u32>], routes: &[Route]) -> Result<Vec<u32>, Memory>
    requires { length routes.now < 2 ^ 32 }
    ensures { IfOk result (λ list. length list.items ≡ moves homes.now routes.now) }
{
    let mut list = Vec::new(alloc);
    for k in 0..routes.len() {
        let route = &routes[k];
        add_moved(homes, k as u32, &route.0, &mut list)?;
    }
    Ok(list)
}

/// The homes by which bars are marked: none where no plan was published before.
pub fn marked_by(view: &View) -> &[Option<u32>]
    ensures { result.now ≡ marked_by view.now.homes }
{
    match &view.homes {
        Some(homes) => homes,
        None => &[],
    }
}

fn moves_line(alloc: Global, count: u64) -> Result<Line, Memory>
    ensures { IfOk result (λ line. line ≡ moves_line count) }
{
    let mut line = Line::new(alloc)?;
    line.text(b"<text class='moves' x='10' y='82'>")?;
    line.unsigned(count)?;
    line.text(b" moved</text>\n")?;
    Ok(line)
}

/// Adds how moved bars are drawn, and how many there are, where a plan was published before.
pub fn add_moves(
    alloc: Global,
    view: &View,
    routes: &[Route],
    lines: &mut Vec<Line>,
) -> Result<(), Memory>
    requires { length routes.now < 2 ^ 32 }
    ensures { OnOk result (lines.new.items ≡ lines.old.items ++ moves_lines view.now.homes routes.now) }
{
    if let Some(homes) = &view.homes {
        let moved = moved(alloc, homes, routes)?;
        lines.push(fixed_line(alloc, moved_style())?)?;
        lines.push(moves_line(alloc, moved.len() as u64)?)?;
    }
    Ok(())
}
