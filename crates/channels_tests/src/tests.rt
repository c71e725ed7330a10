use crate::piles::{over_line, over_wild, put_two};
use channels::channel::Channel;
use channels::holding::Holding;
use channels::layered::{Layer, Layered};
use channels::line::Line;
use channels::look::Look;
use channels::puts::{put_all, put_first};
use channels::repeating::Repeating;
use channels::wild::Wild;
use std::process::Abort;

// The frames that a channel gives are these, and then none.
fn check_gives<C: Channel<u32>>(rt: &impl Abort, channel: &mut C, expected: &[u32]) {
    for frame in expected {
        assert_eq!(rt; channel.take(), Some(*frame));
    }
    assert!(rt; channel.take().is_none());
}

#[test]
fn a_line_keeps_order_goes_round_and_loses_when_full(rt: HostRuntime) {
    let mut table = [0; 3];
    let mut line = Line::new(&mut table);
    put_all(&mut line, &[1, 2, 3, 4]);
    assert_eq!(rt; line.take(), Some(1));
    put_first(&mut line, &[5, 6, 7], 2);
    check_gives(&rt, &mut line, &[2, 3, 5]);
}

#[test]
fn a_line_over_an_empty_table_loses_everything(rt: HostRuntime) {
    let mut table: [u32; 0] = [];
    let mut line = Line::new(&mut table);
    put_all(&mut line, &[1, 2]);
    check_gives(&rt, &mut line, &[]);
}

#[test]
fn the_order_of_layers_shows(rt: HostRuntime) {
    let mut table = [0; 8];
    let mut inner_holds = Repeating::new(Holding::new(Line::new(&mut table)));
    put_two(&mut inner_holds, 1, 2);
    check_gives(&rt, &mut inner_holds, &[1, 1, 2, 2]);
    let mut other = [0; 8];
    let mut outer_holds = Holding::new(Repeating::new(Line::new(&mut other)));
    put_two(&mut outer_holds, 1, 2);
    check_gives(&rt, &mut outer_holds, &[1, 1, 2]);
}

// Two channels show and give the same after the same puts.
fn check_same<C: Look<u32>, D: Look<u32>>(rt: &impl Abort, one: &mut C, other: &mut D) {
    for frame in [1, 2, 3] {
        one.put(frame);
        other.put(frame);
        for i in 0..9 {
            assert_eq!(rt; one.look(i), other.look(i));
        }
    }
    for _ in 0..9 {
        assert_eq!(rt; one.take(), other.take());
    }
}

#[test]
fn layers_chosen_as_the_program_runs_are_those_of_its_types(rt: HostRuntime) {
    let mut table = [0; 8];
    let mut other = [0; 8];
    let holding = Layered::new(Line::new(&mut table), Some(Layer::Holding));
    let mut chosen = Layered::new(holding, Some(Layer::Repeating));
    let mut typed = Repeating::new(Holding::new(Line::new(&mut other)));
    check_same(&rt, &mut chosen, &mut typed);
    let repeating = Layered::new(Line::new(&mut table), Some(Layer::Repeating));
    let mut chosen = Layered::new(repeating, Some(Layer::Holding));
    let mut typed = Holding::new(Repeating::new(Line::new(&mut other)));
    check_same(&rt, &mut chosen, &mut typed);
    let mut chosen = Layered::new(Wild::new(&mut table, 7), None);
    let mut typed = Wild::new(&mut other, 7);
    check_same(&rt, &mut chosen, &mut typed);
}

#[test]
fn piles_give_what_was_put_and_wild_ones_repeat_from_their_seed(rt: HostRuntime) {
    let mut table = [0; 4];
    assert_eq!(rt; over_line(&mut table, 1, 2), Some(1));
    let mut first = false;
    let mut second = false;
    for seed in 0..20 {
        let mut table = [0; 4];
        let mut other = [9; 4];
        let given = over_wild(&mut table, seed, 1, 2);
        assert_eq!(rt; over_wild(&mut other, seed, 1, 2), given);
        first |= given == Some(1);
        second |= given == Some(2);
    }
    assert!(rt; first && second);
}
