//! A rule in words, over a writer that fails at each call in turn.

use crate::devices::{Narrow, have_taken};
use answer::deliver::write_answer;
use answer_explain::rule::explain_rule;
use model::abs::Rule;
use std::alloc::Global;

/// The page of a rule about cancellation, as a writer has it that takes all.
fn whole_page(alloc: Global) -> Narrow {
    let mut out = Narrow::new(alloc, 1, None);
    let mut err = Narrow::new(alloc, 1, None);
    let page = explain_rule(alloc, Rule::CancelState);
    let _status = write_answer(page, &mut out, &mut err);
    out
}

/// Whether the page goes out, or so many bytes of it before a write fails.
fn is_written(alloc: Global, page: &[u8], calls: usize) -> bool {
    let mut out = Narrow::new(alloc, 1, Some(calls));
    let mut err = Narrow::new(alloc, 1, None);
    let answer = explain_rule(alloc, Rule::CancelState);
    let status = write_answer(answer, &mut out, &mut err);
    have_taken(&out, &err, status, page, calls)
}

/// A write that fails is told, and what went out is a beginning of the page.
#[test]
fn each_write_of_a_rule_fails_in_turn(rt: HostRuntime) {
    let whole = whole_page(rt.alloc());
    let page = whole.written.as_slice();
    assert!(rt;
        page.starts_with(b"V12 CancelState\n"),
        "the rule that is asked for"
    );
    for calls in 0..=page.len() {
        assert!(rt; is_written(rt.alloc(), page, calls), "{calls}");
    }
}
