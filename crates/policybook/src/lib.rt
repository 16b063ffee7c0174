// The library for C: build, verdict, compare, page, way and the test for equal bytes on byte slices, each answer one number.
#![tactic(auto)]

ghost use Rattle.std.specs.Prelude.{◌≡◌};
ghost use Rattle.definitions.specs.Build.{build_answer, build_buffer};
ghost use Rattle.definitions.specs.Verdict.{verdict_answer, verdict_buffers};
ghost use Rattle.definitions.specs.Compare.{same_bytes, compare_answer, compare_buffer};
ghost use Rattle.definitions.specs.Page.{page_answer, page_buffer};
ghost use Rattle.definitions.specs.Way.{way_answer, way_buffer};
ghost use Rattle.verdict.specs.VerdictAnswer.{buffers_after};
ghost use Rattle.packing.specs.Packing.{packed, equal_or_not, book_length, findings_value, history_length, page_length, length_or_none};

use packing::{pack_compare, pack_length, pack_same_bytes, pack_verdict, pack_way};

// Builds the book of a policy. The value is the book's length. The book goes to the front of the buffer; the bytes after it are unchanged, and on a refusal all of them.
#[tactic(auto, using(packing::proofs::PackedBounds::lengths))]
#[unsafe(no_mangle)]
pub extern "C" fn policybook_build(policy: &[u8], book: &mut [u8]) -> u64
    ensures value { result ≡ packed book_length (build_answer policy.now book.old) }
    ensures book_after { book.new ≡ build_buffer policy.now book.old }
{
    pack_length(build::build(policy, book))
}

// The findings on a book. The value tells conflict, missing and blocked, from bits 0, 16 and 32 on. The history of each that is found goes to the front of its
// buffer; the bytes after it are unchanged, and so is all of the buffer of a finding that is none, and all of each on a refusal.
#[unsafe(no_mangle)]
pub extern "C" fn policybook_verdict(
    book: &[u8],
    conflict: &mut [u8],
    missing: &mut [u8],
    blocked: &mut [u8],
) -> u64
    ensures value { result ≡ packed findings_value (verdict_answer book.now conflict.old missing.old blocked.old) }
    ensures blocked_after { buffers_after conflict.new missing.new blocked.new
        ≡ verdict_buffers book.now conflict.old missing.old blocked.old }
{
    pack_verdict(verdict::verdict(book, conflict, missing, blocked))
}

// Compares two books. The value is the length of the earliest history that is possible in just one, which goes to the front of the buffer, and 0 where the
// same histories are possible in both. The bytes after the history are unchanged, and on a refusal or on same all of them.
#[unsafe(no_mangle)]
pub extern "C" fn policybook_compare(first: &[u8], second: &[u8], history: &mut [u8]) -> u64
    ensures value { result ≡ packed history_length (compare_answer first.now second.now history.old) }
    ensures history_after { history.new ≡ compare_buffer first.now second.now history.old }
{
    pack_compare(compare::compare(first, second, history))
}

// Writes the page of a book: a line for each state. The value is its length. The page goes to the front of the buffer; the bytes after it are unchanged, and on a
// refusal all of them.
#[tactic(auto, using(packing::proofs::PackedBounds::lengths))]
#[unsafe(no_mangle)]
pub extern "C" fn policybook_page(book: &[u8], page: &mut [u8]) -> u64
    ensures value { result ≡ packed page_length (page_answer book.now page.old) }
    ensures page_after { page.new ≡ page_buffer book.now page.old }
{
    pack_length(page::page(book, page))
}

// Finds the earliest possible history after which a request has an outcome: 0 none, 1 accept, 2 reject, 3 both. The value is one more than the history's length, and 0
// where there is no such history. The history goes to the front of the buffer; the bytes after it are unchanged, and on a refusal or on no history all of them.
#[unsafe(no_mangle)]
pub extern "C" fn policybook_way(
    book: &[u8],
    request: usize,
    outcome: usize,
    history: &mut [u8],
) -> u64
    ensures value { result ≡ packed length_or_none (way_answer book.now request outcome history.old) }
    ensures history_after { history.new ≡ way_buffer book.now request outcome history.old }
{
    pack_way(way::way(book, request, outcome, history))
}

// Whether two byte strings, books or not, have equal bytes: 1 if so, else 0. Nothing is refused.
#[unsafe(no_mangle)]
pub extern "C" fn policybook_same_bytes(first: &[u8], second: &[u8]) -> u64
    ensures { result ≡ equal_or_not (same_bytes first.now second.now) }
{
    pack_same_bytes(samebytes::same_bytes(first, second))
}
