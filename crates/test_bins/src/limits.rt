//! How many clients a map has at most, and how many calls each of them makes.
use crate::asserts::assert_same;
use bin_history::Form;

#[test]
fn clients_and_their_calls_are_limited_by_form(rt: HostRuntime) {
    let clients = [Form::Recorded.most_clients(), Form::Lean.most_clients()];
    assert_same(&rt, &clients, &[32, 65_536]);
    for (clients, calls) in [
        (1, 4_611_686_018_427_387_904),
        (3, 1_537_228_672_809_129_301),
        (32, 144_115_188_075_855_872),
        (65_536, 70_368_744_177_664),
    ] {
        let recorded = Form::Recorded.most_calls(clients);
        let found = (clients, recorded, Form::Lean.most_calls(clients));
        assert_same(&rt, &found, &(clients, 1_000_000, calls));
    }
}
