// The static library for loaders in C or Rust: include/lane.h documents each function.
#![tactic(auto)]

ghost use Rattle.std.specs.Prelude.{◌≡◌};
ghost use Rattle.kung.specs.Class.{code, of_code};
ghost use Rattle.kung.specs.Rule.{invert};
ghost use Rattle.kung.specs.Operation.{join, op_at};
ghost use Rattle.netlist.specs.Netlist.{checked};
ghost use Rattle.changes.specs.Refusals.{list_checked};
ghost use Rattle.core_search.specs.Core.{core_answer};
ghost use Rattle.lists.specs.Methods.{full_of, forward_of, core_of};
ghost use Rattle.walk.specs.Walk.{opened, start_of, walk_at, step_of};
ghost use Rattle.replies.specs.Replies.{Answered, netlist_answer, list_answer, start_answer, step_answer, cored_answer};
ghost use Rattle.lanecard.specs.Buffers.{Fulled, ForwardedOf, AllJudged};

use replies::reply;

#[unsafe(no_mangle)]
pub extern "C" fn lane_join(operation: u8, a: u8, b: u8) -> u8
    ensures { result ≡ code (join (op_at operation) (of_code a) (of_code b)) }
{
    lookup::joined(operation, a, b)
}

#[unsafe(no_mangle)]
pub extern "C" fn lane_invert(a: u8) -> u8
    ensures { result ≡ code (invert (of_code a)) }
{
    kung::inverse(a)
}

#[unsafe(no_mangle)]
pub extern "C" fn lane_netlist(netlist: &[u8], answer: &mut [u64; 5]) -> u32
    ensures { Answered (netlist_answer (checked netlist.now)) result answer.new }
{
    reply(answer, netlist::check(netlist))
}

#[unsafe(no_mangle)]
pub extern "C" fn lane_list(netlist: &[u8], list: &[u8], answer: &mut [u64; 5]) -> u32
    ensures { Answered (list_answer (list_checked netlist.now list.now)) result answer.new }
{
    reply(answer, changes::check(netlist, list))
}

#[unsafe(no_mangle)]
pub extern "C" fn lane_full(
    netlist: &[u8],
    list: &[u8],
    change: usize,
    buffer: &mut [u8],
    answer: &mut [u64; 5],
) -> u32
    ensures { Fulled netlist.now list.now change buffer.old buffer.new result answer.new }
{
    reply(answer, simulate::full(netlist, list, change, buffer))
}

#[unsafe(no_mangle)]
pub extern "C" fn lane_core(
    netlist: &[u8],
    list: &[u8],
    change: usize,
    output: usize,
    answer: &mut [u64; 5],
) -> u32
    ensures { Answered (cored_answer (core_answer netlist.now list.now change output)) result answer.new }
{
    reply(answer, core_search::core(netlist, list, change, output))
}

#[unsafe(no_mangle)]
pub extern "C" fn lane_forward(
    netlist: &[u8],
    list: &[u8],
    change: usize,
    buffer: &mut [u8],
    answer: &mut [u64; 5],
) -> u32
    ensures { ForwardedOf netlist.now list.now change buffer.old buffer.new result answer.new }
{
    reply(answer, forward::forward(netlist, list, change, buffer))
}

#[unsafe(no_mangle)]
pub extern "C" fn lane_full_all(
    netlist: &[u8],
    list: &[u8],
    buffer: &mut [u8],
    answer: &mut [u64; 5],
) -> u32
    ensures { AllJudged (full_of netlist.now list.now) netlist.now list.now buffer.old buffer.new result answer.new }
{
    reply(answer, batch::full(netlist, list, buffer))
}

#[unsafe(no_mangle)]
pub extern "C" fn lane_forward_all(
    netlist: &[u8],
    list: &[u8],
    buffer: &mut [u8],
    answer: &mut [u64; 5],
) -> u32
    ensures { AllJudged (forward_of netlist.now list.now) netlist.now list.now buffer.old buffer.new result answer.new }
{
    reply(answer, batch::forward(netlist, list, buffer))
}

#[unsafe(no_mangle)]
pub extern "C" fn lane_core_all(
    netlist: &[u8],
    list: &[u8],
    buffer: &mut [u8],
    answer: &mut [u64; 5],
) -> u32
    ensures { AllJudged (core_of netlist.now list.now) netlist.now list.now buffer.old buffer.new result answer.new }
{
    reply(answer, batch::core(netlist, list, buffer))
}

#[unsafe(no_mangle)]
pub extern "C" fn lane_walk(netlist: &[u8], answer: &mut [u64; 5]) -> u32
    ensures { Answered (start_answer (start_of (opened netlist.entry))) result answer.new }
{
    reply(answer, walk::open_at(netlist))
}

#[unsafe(no_mangle)]
pub extern "C" fn lane_step(
    netlist: &[u8],
    number: usize,
    place: usize,
    count: usize,
    answer: &mut [u64; 5],
) -> u32
    ensures { Answered (step_answer (step_of (walk_at netlist.entry number place count))) result answer.new }
{
    reply(answer, Ok(walk::step_at(netlist, number, place, count)))
}
