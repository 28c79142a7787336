//! Scripts over tables of acts, with the lines that the rules of the world give for them, worked by hand.

ghost use Rattle.world_tests.specs.Running.{IsRunning};

use crate::acts::Acts;
use crate::lines::lines;
use crate::scripts::{choice, is_in_range, table};
use proc_sched::{ChoiceFault, World};
use std::alloc::{AllocError, Global};
use std::process::Abort;
use std::test::Fail;

// Each table of acts, by rows from 0, and then choices with what is seen of them. A process that is started at a row does what
// stands there in its first turn, and goes on at the next row; its depth is its row.
const RUNS: &str = "
rows spawn 4, send 1 7, answer 9, end normal, wait, receive, print 5, end boom
start 0 => start 0 {m,f,[0]}; ready [0]
run 0 1 => spawn 0 1 4; turn 0 1; ready [0,1]
run 0 1 => send 0 1 7; turn 0 2; ready [0,1]
run 1 1 => turn 1 5; ready [0]
deliver 0 1 => deliver 0 1 7; ready [0,1]
run 0 1 => result 0 9; turn 0 3; ready [0,1]
run 0 1 => exit 0 normal; turn 0 0; ready [1]
run 1 1 => recv 1 7; turn 1 6; ready [1]
run 1 1 => print 1 5; turn 1 7; ready [1]
run 1 1 => exit 1 boom; turn 1 0; ready []
run 0 1 => idle; ready []
deliver 0 1 => idle; ready []

rows wait, pass, receive, receive, end normal, send 0 1, end normal, send 0 2, end normal
start 0 => start 0 {m,f,[0]}; ready [0]
start 5 => start 1 {m,f,[5]}; ready [0,1]
start 7 => start 2 {m,f,[7]}; ready [0,1,2]
run 0 1 => turn 0 1; ready [1,2]
run 1 1 => send 1 0 1; turn 1 6; ready [1,2]
run 2 1 => send 2 0 2; turn 2 8; ready [1,2]
deliver 2 0 => deliver 2 0 2; ready [0,1,2]
deliver 1 0 => deliver 1 0 1; ready [0,1,2]
run 0 1 => turn 0 2; ready [0,1,2]
run 0 1 => recv 0 1; turn 0 3; ready [0,1,2]
run 0 1 => recv 0 2; turn 0 4; ready [0,1,2]
run 0 1 => exit 0 normal; turn 0 0; ready [1,2]
run 1 1 => exit 1 normal; turn 1 0; ready [2]

rows send 1 1, send 1 2, wait
start 0 => start 0 {m,f,[0]}; ready [0]
start 2 => start 1 {m,f,[2]}; ready [0,1]
run 0 1 => send 0 1 1; turn 0 1; ready [0,1]
run 0 1 => send 0 1 2; turn 0 2; ready [0,1]
deliver 1 0 => idle; ready [0,1]
deliver 0 1 => deliver 0 1 1; ready [0,1]
deliver 0 1 => deliver 0 1 2; ready [0,1]
deliver 0 1 => idle; ready [0,1]

rows send 0 4, receive
start 0 => start 0 {m,f,[0]}; ready [0]
run 0 1 => send 0 0 4; turn 0 1; ready [0]
deliver 0 0 => deliver 0 0 4; ready [0]
run 0 1 => recv 0 4; turn 0 2; ready [0]
run 0 1 => turn 0 2; ready [0]

rows send 1 1, rest, end normal
start 0 => start 0 {m,f,[0]}; ready [0]
start 2 => start 1 {m,f,[2]}; ready [0,1]
run 0 1 => send 0 1 1; turn 0 1; ready [0,1]
run 1 1 => exit 1 normal; turn 1 0; ready [0]
deliver 0 1 => drop 0 1; ready [0]

rows exit 1 normal, exit 1 boom, exit 1 boom, exit 9 boom, exit 0 normal, rest
start 0 => start 0 {m,f,[0]}; ready [0]
start 5 => start 1 {m,f,[5]}; ready [0,1]
run 0 1 => signal 0 1 normal; turn 0 1; ready [0,1]
deliver 0 1 => drop 0 1; ready [0,1]
run 0 1 => signal 0 1 boom; turn 0 2; ready [0,1]
deliver 0 1 => hit 0 1 boom; exit 1 boom; ready [0]
run 0 1 => signal 0 1 boom; turn 0 3; ready [0]
deliver 0 1 => drop 0 1; ready [0]
run 0 1 => lost 0 boom; turn 0 4; ready [0]
run 0 1 => signal 0 0 normal; turn 0 5; ready [0]
deliver 0 0 => hit 0 0 normal; exit 0 normal; ready []
input 0 late => idle; ready []

rows exit 1 7, link 2, end 7, wait
start 0 => start 0 {m,f,[0]}; ready [0]
start 3 => start 1 {m,f,[3]}; ready [0,1]
start 3 => start 2 {m,f,[3]}; ready [0,1,2]
run 0 1 => signal 0 1 7; turn 0 1; ready [0,1,2]
deliver 0 1 => hit 0 1 7; exit 1 7; ready [0,2]
run 0 1 => turn 0 2; ready [0,2]
run 0 1 => exit 0 7; broken 0 2 7; turn 0 0; ready [2]
deliver 0 2 => hit 0 2 7; exit 2 7; ready []

rows exit 1 boom, exit 1 normal, exit 1 kill, trap, wait, receive
start 0 => start 0 {m,f,[0]}; ready [0]
start 3 => start 1 {m,f,[3]}; ready [0,1]
run 1 1 => turn 1 4; ready [0,1]
run 1 1 => turn 1 5; ready [0]
run 0 1 => signal 0 1 boom; turn 0 1; ready [0]
deliver 0 1 => deliver 0 1 {'EXIT',#Pid<0.0>,boom}; ready [0,1]
run 0 1 => signal 0 1 normal; turn 0 2; ready [0,1]
deliver 0 1 => deliver 0 1 {'EXIT',#Pid<0.0>,normal}; ready [0,1]
run 0 1 => signal 0 1 kill; turn 0 3; ready [0,1]
deliver 0 1 => hit 0 1 killed; exit 1 killed; ready [0]

rows link 1, link 1, link 0, end boom, wait, receive
start 0 => start 0 {m,f,[0]}; ready [0]
start 4 => start 1 {m,f,[4]}; ready [0,1]
run 1 1 => turn 1 5; ready [0]
run 0 1 => turn 0 1; ready [0]
run 0 1 => turn 0 2; ready [0]
run 0 1 => turn 0 3; ready [0]
run 0 1 => exit 0 boom; broken 0 1 boom; turn 0 0; ready []
deliver 0 1 => hit 0 1 boom; exit 1 boom; ready []

rows link 1, end boom, unlink 0, wait
start 0 => start 0 {m,f,[0]}; ready [0]
start 2 => start 1 {m,f,[2]}; ready [0,1]
run 0 1 => turn 0 1; ready [0,1]
run 1 1 => turn 1 3; ready [0,1]
run 0 1 => exit 0 boom; turn 0 0; ready [1]
run 1 1 => turn 1 4; ready []

rows link 1, end boom, rest, link 0, unlink 0, link 0, rest
start 0 => start 0 {m,f,[0]}; ready [0]
start 2 => start 1 {m,f,[2]}; ready [0,1]
run 0 1 => turn 0 1; ready [0,1]
run 0 1 => exit 0 boom; broken 0 1 boom; turn 0 0; ready [1]
run 1 1 => turn 1 3; ready [1]
run 1 1 => turn 1 4; ready [1]
run 1 1 => turn 1 5; ready [1]
deliver 0 1 => drop 0 1; ready [1]
run 1 1 => broken 0 1 noproc; turn 1 6; ready [1]
deliver 0 1 => hit 0 1 noproc; exit 1 noproc; ready []

rows link 1, end normal, wait, link 0
start 0 => start 0 {m,f,[0]}; ready [0]
start 2 => start 1 {m,f,[2]}; ready [0,1]
run 0 1 => turn 0 1; ready [0,1]
run 0 1 => exit 0 normal; broken 0 1 normal; turn 0 0; ready [1]
deliver 0 1 => drop 0 1; ready [1]
run 1 1 => turn 1 3; ready []
input 1 go => input 1 go; ready [1]
run 1 1 => broken 0 1 noproc; turn 1 4; ready [1]
deliver 0 1 => hit 0 1 noproc; exit 1 noproc; ready []

rows link 1, link 2, end kill, wait, trap, wait
start 0 => start 0 {m,f,[0]}; ready [0]
start 3 => start 1 {m,f,[3]}; ready [0,1]
start 4 => start 2 {m,f,[4]}; ready [0,1,2]
run 1 1 => turn 1 4; ready [0,2]
run 2 1 => turn 2 5; ready [0,2]
run 2 1 => turn 2 6; ready [0]
run 0 1 => turn 0 1; ready [0]
run 0 1 => turn 0 2; ready [0]
run 0 1 => exit 0 kill; broken 0 1 kill; broken 0 2 kill; turn 0 0; ready []
deliver 0 2 => deliver 0 2 {'EXIT',#Pid<0.0>,kill}; ready [2]
deliver 0 1 => hit 0 1 kill; exit 1 kill; ready [2]

rows link 2, link 1, end boom, wait
start 0 => start 0 {m,f,[0]}; ready [0]
start 3 => start 1 {m,f,[3]}; ready [0,1]
start 3 => start 2 {m,f,[3]}; ready [0,1,2]
run 0 1 => turn 0 1; ready [0,1,2]
run 0 1 => turn 0 2; ready [0,1,2]
run 0 1 => exit 0 boom; broken 0 1 boom; broken 0 2 boom; turn 0 0; ready [1,2]
deliver 0 1 => hit 0 1 boom; exit 1 boom; ready [2]

rows link 1, end boom, link 2, wait
start 0 => start 0 {m,f,[0]}; ready [0]
start 2 => start 1 {m,f,[2]}; ready [0,1]
start 3 => start 2 {m,f,[3]}; ready [0,1,2]
run 1 1 => turn 1 3; ready [0,1,2]
run 1 1 => turn 1 4; ready [0,2]
run 2 1 => turn 2 4; ready [0]
run 0 1 => turn 0 1; ready [0]
run 0 1 => exit 0 boom; broken 0 1 boom; turn 0 0; ready []
deliver 0 1 => hit 0 1 boom; exit 1 boom; broken 1 2 boom; ready []
deliver 1 2 => hit 1 2 boom; exit 2 boom; ready []

rows spawn 2 linked, end boom, wait
start 0 => start 0 {m,f,[0]}; ready [0]
run 0 1 => spawn 0 1 2; turn 0 1; ready [0,1]
run 1 1 => turn 1 3; ready [0]
run 0 1 => exit 0 boom; broken 0 1 boom; turn 0 0; ready []
deliver 0 1 => hit 0 1 boom; exit 1 boom; ready []

rows sleep 5000, receive, end normal
start 0 => start 0 {m,f,[0]}; ready [0]
run 0 1 => turn 0 1; ready []
advance 4999 => clock 4999; ready []
advance 1 => clock 5000; ready [0]
run 0 1 => turn 0 2; ready [0]
run 0 1 => exit 0 normal; turn 0 0; ready []
advance 4294967296 => clock 4294972296; ready []

rows sleep 5000, receive, wait
start 0 => start 0 {m,f,[0]}; ready [0]
run 0 1 => turn 0 1; ready []
input 0 hello => input 0 hello; ready [0]
run 0 1 => recv 0 hello; turn 0 2; ready [0]
run 0 1 => turn 0 3; ready []
advance 5000 => clock 5000; ready []

rows raise boom, send 7 1, fault, end boom
start 0 => start 0 {m,f,[0]}; ready [0]
run 0 1 => raise 0 exit boom; turn 0 1; ready [0]
run 0 1 => lost 0 1; turn 0 2; ready [0]
run 0 1 => fault 0; turn 0 3; ready [0]
run 0 1 => exit 0 boom; turn 0 0; ready []
run 3 1 => idle; ready []
deliver 5 6 => idle; ready []
input 4 x => idle; ready []

rows send 2 1, wait, send 2 2, wait, wait, receive, receive, wait
start 0 => start 0 {m,f,[0]}; ready [0]
start 2 => start 1 {m,f,[2]}; ready [0,1]
start 4 => start 2 {m,f,[4]}; ready [0,1,2]
auto 3 => send 0 2 1; turn 0 1; ready [0,1,2]; deliver 0 2 1; ready [0,1,2]; send 1 2 2; turn 1 3; ready [0,1,2]; deliver 1 2 2; ready [0,1,2]; turn 2 5; ready [0,1,2]
auto 2 => turn 0 2; ready [1,2]; turn 1 4; ready [2]
auto 9 => recv 2 1; turn 2 6; ready [2]; recv 2 2; turn 2 7; ready [2]; turn 2 8; ready []
auto 1 => idle; ready []

rows send 2 1, wait, send 2 2, wait, wait
start 0 => start 0 {m,f,[0]}; ready [0]
start 2 => start 1 {m,f,[2]}; ready [0,1]
start 4 => start 2 {m,f,[4]}; ready [0,1,2]
run 1 1 => send 1 2 2; turn 1 3; ready [0,1,2]
run 0 1 => send 0 2 1; turn 0 1; ready [0,1,2]
auto 1 => deliver 0 2 1; ready [0,1,2]; deliver 1 2 2; ready [0,1,2]; turn 0 2; ready [1,2]

rows sleep 300, end normal, sleep 200, end normal
start 0 => start 0 {m,f,[0]}; ready [0]
start 2 => start 1 {m,f,[2]}; ready [0,1]
auto 2 => turn 0 1; ready [1]; turn 1 3; ready []
auto 1 => clock 200; ready [1]
auto 9 => exit 1 normal; turn 1 0; ready []; clock 300; ready [0]; exit 0 normal; turn 0 0; ready []
auto 9 => idle; ready []
";

/// Makes a choice, and tells what is seen of it.
fn told(alloc: Global, world: &mut World<Acts>, words: &str) -> Result<String, Fail>
    requires { IsRunning world.old }
    ensures { IsRunning world.new }
{
    world.forget_events();
    match choice(alloc, words)? {
        Some(choice) if is_in_range(&choice) => {
            world.choose(&choice)?;
            Ok(lines(alloc, world.heap(), world.events())?)
        }
        _ => Ok(format!(in alloc; "no choice: {words}")?),
    }
}

/// Makes a choice, and tells why it was not made, if it was not.
fn fault_of(
    alloc: Global,
    world: &mut World<Acts>,
    words: &str,
) -> Result<Option<ChoiceFault>, AllocError>
    requires { IsRunning world.old }
    ensures { IsRunning world.new }
{
    match choice(alloc, words)? {
        Some(choice) if is_in_range(&choice) => Ok(world.choose(&choice).err()),
        _ => Ok(None),
    }
}

/// Runs the choices of a table, and compares what is seen of each.
fn compare(rt: &impl Abort, alloc: Global, block: &str) -> Result<(), Fail> {
    let (acts, choices) = block.trim().split_once('\n').unwrap_or((block, ""));
    let Some(rows) = table(alloc, acts.trim_start_matches("rows "))? else {
        assert_eq!(rt; acts, "a table of acts");
        return Ok(());
    };
    let mut running = World::new(alloc, Acts { rows });
    for line in choices.lines() {
        let (words, expected) = line.split_once(" => ").unwrap_or((line, ""));
        let seen = told(alloc, &mut running, words)?;
        assert_eq!(rt; seen.as_str(), expected, "{words}");
    }
    Ok(())
}

#[test]
fn scripts_are_run_by_the_rules_of_the_world(rt: HostRuntime) -> Result<(), Fail> {
    for block in RUNS.split("\n\n") {
        compare(&rt, rt.alloc(), block)?;
    }
    Ok(())
}

#[test]
fn an_opaque_token_leaves_the_world_as_it_was(rt: HostRuntime) -> Result<(), Fail> {
    let alloc = rt.alloc();
    let mut world = World::new(
        alloc,
        Acts {
            rows: Vec::new(alloc),
        },
    );
    let first = told(alloc, &mut world, "start 0")?;
    assert_eq!(rt; first.as_str(), "start 0 {m,f,[0]}; ready [0]");
    let fault = fault_of(alloc, &mut world, "input 0 ?x")?;
    assert_eq!(rt; fault, Some(ChoiceFault::Opaque));
    assert_eq!(rt; world.events().len(), 2);
    let next = told(alloc, &mut world, "run 0 5")?;
    assert_eq!(rt; next.as_str(), "turn 0 0; ready [0]");
    Ok(())
}
