//! The answers to a page of a list are flushed before the next one is read.

use crate::cases::{Streams, WELL, for_each};
use crate::expected::expect_at;
use h3_fakes::Faults;
use h3_requests::IndexFunction;
use std::alloc::Global;

/// Four cells, a page each where 16 bytes are read at once; at resolution 5 their own answer.
const FOUR: &str = "85283473fffffff\n85283447fffffff\n8528347bfffffff\n85283463fffffff\n";

/// Whether at a read fault after so many pages the answers to these are written, and were flushed
/// after each page.
fn flushes_each(alloc: Global, pages: u64) -> bool {
    let case = for_each(IndexFunction::CellToParent { res: 5 }, FOUR, "");
    let streams = Streams {
        most: 16,
        reads: Faults::From(pages),
        ..WELL
    };
    let run = case.over(alloc, streams);
    let read = (pages as usize).saturating_mul(16);
    let Some(begun) = FOUR.as_bytes().get(..read) else {
        return false;
    };
    run.status == 4 && run.out.bytes() == begun && run.out.flushes() == pages
}

#[test]
fn a_page_is_flushed_before_the_next_one_is_read(rt: HostRuntime) {
    for pages in 0..5u64 {
        expect_at(&rt, "pages", pages, flushes_each(rt.alloc(), pages));
    }
}
