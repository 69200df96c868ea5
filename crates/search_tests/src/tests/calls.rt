//! Each caller of `sample_calls` once, where memory is ample: on two flights of which one aircraft may fly both, and
//! another one alone.

ghost use Rattle.std.specs.Prelude.{◌<◌, IsTrue};
ghost use Rattle.tail_book.specs.Lookup.{activities, aircraft};
ghost use Rattle.tail_book.specs.CostTable.{IsTableFor};
ghost use Rattle.turn_rules.specs.inside.PermissionTable.{ArePermissionsOf};
ghost use Rattle.maint_counters.specs.inside.StepTable.{IsStepTableOf};
ghost use Rattle.plan_report.specs.inside.Report.{HasPlanFor};

use branch_tree::least_plan;
use maint_counters::StepTable;
use plan_audit::Broken;
use plan_report::laws::true_outcomes_can_be_written;
use plan_report::read_plan;
use sample_calls::*;
use std::alloc::Global;
use std::test::Fail;
use tail_book::{
    Activity, Book, CostTable, Memory, Name, Outcome, Place, Plan, RawPlan, Route, Tail, laws,
};
use tail_outside::{MemFiles, MemSink};
use tail_text::{Bad, Stopped};
use turn_rules::PermissionTable;

const TIMETABLE: &str = "id,kind,from,to,start,end,types,tags,tail,resets
F1,flight,ARN,OSL,2025-03-03T06:00,2025-03-03T07:00,,,,
F2,flight,OSL,ARN,2025-03-03T07:30,2025-03-03T08:30,P,,,
";

const FLIGHTS: &str = "id,from,to,start,end
F1,ARN,OSL,2025-03-03T06:00,2025-03-03T07:00
F2,OSL,ARN,2025-03-03T07:30,2025-03-03T08:15
";

// The second flight takes no time.
const NO_TIME: &str = "id,from,to,start,end
F1,ARN,OSL,2025-03-03T06:00,2025-03-03T07:00
F2,OSL,ARN,2025-03-03T07:30,2025-03-03T07:30
";

const FLEET: &str = "tail,type,at,ready,fixed,tags,avoid,carry
A1,P,ARN,2025-03-03T05:00,0,,,
A2,Q,ARN,2025-03-03T05:00,7,,,
";

const RULES: &str = "
[[type]]
name = \"P\"
rate = 1
turn = 30
[[type]]
name = \"Q\"
rate = 2
turn = 30
[[airport]]
name = \"ARN\"
offset = 60
turn = 20
[[airport]]
name = \"OSL\"
offset = 60
turn = 20
[[counter]]
name = \"ldg\"
kind = \"landings\"
limit = 2
bases = []
stop = 480
[[band]]
upto = 2880
cost = 5
";

// 2025-03-03T06:00.
const SIX: i64 = 29_016_360;

// The numbers of the aircraft and of the flights.
const A1: u32 = 0;

const A2: u32 = 1;

const F1: u32 = 0;

const F2: u32 = 1;

// The book of the texts, if it has two flights and two aircraft.
fn small_book(alloc: Global) -> Option<Book> {
    let (timetable, fleet, rules) = (TIMETABLE.as_bytes(), FLEET.as_bytes(), RULES.as_bytes());
    match book_of_texts(alloc, timetable, fleet, rules) {
        Ok(book) if has_two_of_each(&book) => Some(book),
        _ => None,
    }
}

fn has_two_of_each(book: &Book) -> bool
    ensures tails { IsTrue result → 1 < aircraft book.now }
    ensures activities { IsTrue result → 1 < activities book.now }
{
    book.tails.len() == 2 && book.activities.len() == 2
}

fn book(alloc: Global) -> Result<Book, Fail> {
    match small_book(alloc) {
        Some(book) => Ok(book),
        None => Err(Fail::new("no book of two flights and two aircraft")),
    }
}

// Whether this is the line of the refusal: an empty one where there is a book.
fn is_refusal(alloc: Global, fleet: &str, line: &[u8]) -> bool {
    let (timetable, rules) = (TIMETABLE.as_bytes(), RULES.as_bytes());
    match why_refused(alloc, timetable, fleet.as_bytes(), rules) {
        Ok(Some(shown)) => shown.bytes() == line,
        Ok(None) => line.is_empty(),
        Err(_) => false,
    }
}

fn minutes(flight: &Flight) -> i64 {
    flight.end.saturating_sub(flight.start)
}

// Whether two flights of so many minutes are read.
fn are_read(alloc: Global, text: &str, first: i64, second: i64) -> bool {
    match read_flights(alloc, text.as_bytes()) {
        Ok(flights) => match flights.as_slice() {
            [one, two] => minutes(one) == first && minutes(two) == second,
            _ => false,
        },
        Err(_) => false,
    }
}

// Whether the flights are refused by this code at this place.
fn are_refused(alloc: Global, text: &str, code: u8, place: u64) -> bool {
    match read_flights(alloc, text.as_bytes()) {
        Err(Stopped::Refused(refusal)) => refusal.code == code && refusal.place == place,
        _ => false,
    }
}

#[test]
fn texts_are_read(rt: HostRuntime) {
    let alloc = rt.alloc();
    assert!(rt; is_refusal(alloc, FLEET, b""));
    assert!(rt; is_refusal(alloc, "tail,type\n", b"refused 3 fleet 1\n"));
    assert!(rt; are_read(alloc, FLIGHTS, 60, 45));
    assert!(rt; are_refused(alloc, NO_TIME, 7, 3));
    assert!(rt; delayed(b"2025-03-03T06:00", b"35") == Ok(SIX + 35));
    assert!(rt; delayed(b"2025-03-03T06:00", b"1441") == Err(Bad));
}

fn add_route(alloc: Global, routes: &mut Vec<Route>, route: &[u32]) -> Result<(), Memory> {
    routes.push(Route(route.to_vec(alloc)?))?;
    Ok(())
}

// The routes of two aircraft.
fn plan(alloc: Global, first: &[u32], second: &[u32]) -> Result<Plan, Memory> {
    let mut routes = Vec::new(alloc);
    add_route(alloc, &mut routes, first)?;
    add_route(alloc, &mut routes, second)?;
    Ok(Plan(routes))
}

// The routes of A1 and A2, and what they cost where they are legal.
type Costed = (&'static [u32], &'static [u32], Option<u64>);

const COSTED: [Costed; 3] = [
    (&[F1, F2], &[], Some(125)),
    (&[F1], &[F2], None),
    (&[F2, F1], &[], None),
];

fn costs_so(alloc: Global, book: &Book, row: &Costed) -> bool {
    let &(first, second, cost) = row;
    match plan(alloc, first, second) {
        Ok(plan) => cost_if_legal(alloc, book, &plan) == Ok(cost),
        Err(_) => false,
    }
}

// A plan's text, and the first rule that it breaks.
type Judged = (&'static str, Option<Broken>);

const JUDGED: [Judged; 3] = [
    ("optimal 125\nA1: F1 F2\n", None),
    ("optimal 0\nA1: F1\n", Some(Broken::Uncovered(F2))),
    (
        "optimal 0\nA1: F1\nA2: F2\n",
        Some(Broken::NotAllowed(A2, F2)),
    ),
];

fn breaks_so(alloc: Global, book: &Book, row: &Judged) -> bool {
    match read_plan(alloc, row.0.as_bytes()) {
        Ok(raw) => first_broken(alloc, book, &raw) == Ok(row.1),
        Err(_) => false,
    }
}

fn has_routes(plan: &Plan, first: &[u32], second: &[u32]) -> bool {
    match plan.0.as_slice() {
        [one, two] => one.0.as_slice() == first && two.0.as_slice() == second,
        _ => false,
    }
}

// Whether these routes stay of a plan's text.
fn keeps(alloc: Global, book: &Book, text: &[u8], first: &[u32], second: &[u32]) -> bool {
    match kept_in_text(alloc, book, text) {
        Ok(plan) => has_routes(&plan, first, second),
        Err(_) => false,
    }
}

// A1 flies both or the first alone, and A2 may fly the first: which plans are legal, what they cost, and what an audit
// tells of others.
#[test]
fn plans_are_judged(rt: HostRuntime) -> Result<(), Fail> {
    let alloc = rt.alloc();
    let book = book(alloc)?;
    for (number, row) in COSTED.iter().enumerate() {
        assert!(rt; costs_so(alloc, &book, row), "plan {number}");
    }
    for (number, row) in JUDGED.iter().enumerate() {
        assert!(rt; breaks_so(alloc, &book, row), "text {number}");
    }
    assert!(rt; keeps(alloc, &book, b"optimal 0\nA1: F1 F9 F1\n", &[F1], &[]));
    Ok(())
}

const REPORT: &[u8] = b"optimal 125\nA1: F1 F2\nA2:\n";

fn prints_report(alloc: Global, book: &Book) -> bool {
    match MemSink::new(alloc, Vec::new(alloc)) {
        Ok(mut out) => print_least_plan(alloc, book, &mut out) == Ok(()) && out.bytes() == REPORT,
        Err(_) => false,
    }
}

fn prints_audit(alloc: Global, book: &Book, raw: &RawPlan) -> bool {
    match MemSink::new(alloc, Vec::new(alloc)) {
        Ok(mut out) => {
            print_audit(alloc, book, raw, &mut out) == Ok(())
                && out.bytes() == b"legal 125\n".as_slice()
        }
        Err(_) => false,
    }
}

// Whether the plan in the file is as legal as it was.
fn is_legal_again(alloc: Global, book: &Book, files: &mut MemFiles) -> bool {
    match plan_of_file(alloc, files, "plan") {
        Ok(raw) => prints_audit(alloc, book, &raw),
        Err(_) => false,
    }
}

// Whether the report of an outcome is kept in a file, and its plan read again.
fn is_kept_in(alloc: Global, book: &Book, outcome: &Outcome, files: MemFiles) -> bool
    requires { HasPlanFor book.now outcome.now }
{
    let mut saved = save_report(alloc, book, outcome, files, "plan");
    saved.done == Ok(())
        && saved.files.bytes("plan") == Some(REPORT)
        && is_legal_again(alloc, book, &mut saved.files)
}

fn is_kept(alloc: Global, book: &Book, outcome: &Outcome) -> bool
    requires { HasPlanFor book.now outcome.now }
{
    match MemFiles::new(alloc, Vec::new(alloc), Vec::new(alloc)) {
        Ok(files) => is_kept_in(alloc, book, outcome, files),
        Err(_) => false,
    }
}

fn least_is_kept(alloc: Global, book: &Book) -> bool {
    laws::every_book_is_sound(book);
    true_outcomes_can_be_written();
    match least_plan(alloc, book) {
        Ok(outcome) => is_kept(alloc, book, &outcome),
        Err(_) => false,
    }
}

// The report, printed and kept in a file, from which its plan is read again; and an audit.
#[test]
fn answers_are_printed_and_kept(rt: HostRuntime) -> Result<(), Fail> {
    let alloc = rt.alloc();
    let book = book(alloc)?;
    assert!(rt; prints_report(alloc, &book));
    assert!(rt; least_is_kept(alloc, &book));
    Ok(())
}

// An aircraft, a route, and how far it comes.
type Flown = (u32, &'static [u32], usize);

const FLOWN: [Flown; 5] = [
    (A1, &[], 0),
    (A1, &[F1, F2], 2),
    (A1, &[F2], 0),
    (A2, &[F1, F2], 1),
    (A1, &[F1, 7], 1),
];

// Whether it comes so far by these tables, of which there is an aircraft of this number.
fn is_front(alloc: Global, book: &Book, tables: (&PermissionTable, &StepTable), row: &Flown) -> bool
    requires permissions { ArePermissionsOf book.now tables.0.now }
    requires steps { IsStepTableOf book.now tables.1.now }
{
    let &(k, route, far) = row;
    (k as usize) < book.tails.len() && legal_front(alloc, book, tables, k, route) == Ok(far)
}

fn has_front(alloc: Global, book: &Book, permissions: &PermissionTable, row: &Flown) -> bool
    requires { ArePermissionsOf book.now permissions.now }
{
    match StepTable::of(alloc, book) {
        Ok(steps) => is_front(alloc, book, (permissions, &steps), row),
        Err(_) => false,
    }
}

// The same by the book's own tables.
fn comes_so_far(alloc: Global, book: &Book, row: &Flown) -> bool {
    match PermissionTable::of(alloc, book) {
        Ok(permissions) => has_front(alloc, book, &permissions, row),
        Err(_) => false,
    }
}

// Whether it can be flown exactly where all of it can.
fn is_flown(alloc: Global, book: &Book, row: &Flown) -> bool {
    let &(k, route, far) = row;
    (k as usize) < book.tails.len() && is_flyable(alloc, book, k, route) == Ok(far == route.len())
}

// A flight that starts elsewhere, one that may not be flown, and a number of no flight each end a route.
#[test]
fn routes_are_legal_up_to_a_place(rt: HostRuntime) -> Result<(), Fail> {
    let alloc = rt.alloc();
    let book = book(alloc)?;
    for (number, row) in FLOWN.iter().enumerate() {
        assert!(rt; comes_so_far(alloc, &book, row), "route {number}");
        assert!(rt; is_flown(alloc, &book, row), "route {number}");
    }
    Ok(())
}

// Whether these are the aircraft that may fly a flight, by this table.
fn are_fliers(
    alloc: Global,
    book: &Book,
    permissions: &PermissionTable,
    a: u32,
    fliers: &[u32],
) -> bool
    requires { ArePermissionsOf book.now permissions.now }
{
    if a as usize >= book.activities.len() {
        return false;
    }
    match who_may_fly(alloc, book, permissions, a) {
        Ok(list) => list.as_slice() == fliers,
        Err(_) => false,
    }
}

// The same by the book's own table.
fn may_fly(alloc: Global, book: &Book, a: u32, fliers: &[u32]) -> bool {
    match PermissionTable::of(alloc, book) {
        Ok(permissions) => are_fliers(alloc, book, &permissions, a, fliers),
        Err(_) => false,
    }
}

fn is_turn_cost(book: &Book, table: &CostTable, cost: u64) -> bool
    requires { IsTableFor book.now table.now }
{
    has_two_of_each(book) && leg_cost(book, table, A1, Place::After(F1), F2) == cost
}

// Whether it costs A1 so much to fly F2 behind F1.
fn turn_costs(alloc: Global, book: &Book, cost: u64) -> bool {
    laws::own_costs_are_for_book();
    match CostTable::of(alloc, book) {
        Ok(table) => is_turn_cost(book, &table, cost),
        Err(_) => false,
    }
}

// Whether this is the line of that connection.
fn is_turn_line(alloc: Global, book: &Book, line: &[u8]) -> bool {
    if !has_two_of_each(book) {
        return false;
    }
    match ground_line(alloc, book, A1, F1, F2) {
        Ok(shown) => shown.bytes() == line,
        Err(_) => false,
    }
}

// Whether A1 and A2 may swap F1 and F2.
fn may_turn(book: &Book) -> bool {
    has_two_of_each(book) && may_swap(book, A1, F1, A2, F2)
}

#[test]
fn aircraft_and_flights_are_asked_for(rt: HostRuntime) -> Result<(), Fail> {
    let alloc = rt.alloc();
    let book = book(alloc)?;
    assert!(rt; may_fly(alloc, &book, F1, &[A1, A2]));
    assert!(rt; may_fly(alloc, &book, F2, &[A1]));
    assert!(rt; turn_costs(alloc, &book, 65));
    assert!(rt; is_turn_line(alloc, &book, b"F1 F2 30"));
    assert!(rt; may_turn(&book));
    Ok(())
}

// An aircraft of a type at ARN, with so many counters.
fn spare(alloc: Global, name: Name, counters: usize) -> Result<Tail, Memory> {
    let carry = vec![in alloc; 0; counters]?;
    Ok(Tail {
        name,
        kind: 0,
        at: 0,
        ready: SIX,
        fixed: 0,
        tags: Vec::new(alloc),
        avoid: Vec::new(alloc),
        carry,
    })
}

// Whether the book with an aircraft more is made exactly where it has to be.
fn is_made(book: Book, tail: Tail, made: bool) -> bool {
    match with_aircraft(book, tail) {
        Ok(larger) => larger.is_some() == made,
        Err(_) => false,
    }
}

fn is_made_of(alloc: Global, tail: Tail, made: bool) -> bool {
    match small_book(alloc) {
        Some(book) => is_made(book, tail, made),
        None => false,
    }
}

fn is_made_with(alloc: Global, name: Name, counters: usize, made: bool) -> bool {
    match spare(alloc, name, counters) {
        Ok(tail) => is_made_of(alloc, tail, made),
        Err(_) => false,
    }
}

// Whether the book with a flight more, behind the others, is one.
fn takes_flight(book: Book, flight: Activity) -> bool {
    let Book {
        mut activities,
        tails,
        rules,
    } = book;
    let is_added = activities.push(flight).is_ok();
    Book::new(activities, tails, rules).is_some() && is_added
}

fn takes_third_flight(alloc: Global) -> bool {
    let (id, start) = (Name::new(b"F3".as_slice()), SIX + 180);
    match small_book(alloc) {
        Some(book) => takes_flight(book, plain_flight(alloc, id, 0, 1, start, start + 60)),
        None => false,
    }
}

// An aircraft more has a name of its own and a value for the one counter. A flight more makes a book of its own.
#[test]
fn books_are_made_in_memory(rt: HostRuntime) {
    let alloc = rt.alloc();
    let (a2, a3) = (Name::new(b"A2".as_slice()), Name::new(b"A3".as_slice()));
    assert!(rt; is_made_with(alloc, a3, 1, true));
    assert!(rt; is_made_with(alloc, a2, 1, false));
    assert!(rt; is_made_with(alloc, a3, 0, false));
    assert!(rt; takes_third_flight(alloc));
}
