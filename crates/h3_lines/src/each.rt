//! Lists of which each line is answered on its own.

ghost use Rattle.std.proofs.Common.{◌∙◌, refl};
ghost use Rattle.std.specs.Prelude.{◌≡◌, ◌+◌, ◌<◌, ◌≤◌, ◌++◌, ◌∷◌, ◌^◌, [], ℕ, List, length, Option, Err, take, IfOk, IfErr, OnOk, vec_capacity};
ghost use Rattle.h3_lines.specs.Answer.{Answer, printed, refused};
ghost use Rattle.h3_lines.specs.Answering.{Answered, EndsBy, Puts, RefusesLines, answer_said, lines_from};
ghost use Rattle.h3_lines.specs.EachLaws.{answered_none, answered_then, refuses_then};
ghost use Rattle.h3_lines.specs.EachLine.{EndsEach, line_answer};
ghost use Rattle.h3_lines.specs.Pieces.{Piece};
ghost use Rattle.h3_lines.specs.Stop.{stopped_at};
ghost use Rattle.h3_lines.specs.Write.{sink_use};
ghost use Rattle.h3_lines.specs.declared.line.TheConstants.{BLOCK};
ghost use Rattle.h3_lines.specs.declared.run_error.AnswerError.TheVariants.{At};
ghost use Rattle.h3_lines.specs.declared.run_error.RunError.{RunError};
ghost use Rattle.h3_lines.specs.declared.splitting.TheConstants.{LONGEST_LINE};

use crate::line::{BLOCK, Line};
use crate::plain::{IndexJob, LINES, take_plain};
use crate::run_error::{Fault, RunError};
use crate::splitting::{Job, JobContract, LONGEST_LINE, MAX_READS, PAGE, drive, row_page};
use crate::stop::Stop;
use crate::write::{make_room, write_held};
use h3_index::{H3Error, is_blank_text, read_index};
use h3_streams::{CountedReader, Sink, Source};
use std::alloc::Global;

/// A function of one index.
pub trait AnswerLine {
    /// What its own command answers to an index, or to a word that parses as none.
    ghost answer_of: { Self → Option ℕ → Answer };

    /// Puts the answer into a block from the byte `at` on, and returns where it ends; or returns
    /// its error. The bytes after it may change too. What looks for
    /// something begins at a place, and leaves there where it was found, for the next line; the
    /// place may be any. All else passes it over.
    fn put(
        &self,
        index: Option<u64>,
        place: &mut usize,
        block: &mut [u8; BLOCK],
        at: usize,
    ) -> Result<usize, H3Error>
        requires room { at + 672 ≤ 32768 }
        ensures end { IfOk result (λ end. end ≤ at + 672) }
        ensures ok { IfOk result (λ end.
            Puts (answer_of self.now index) block.old block.new at end) }
        ensures err { IfErr result (λ e. answer_of self.now index ≡ refused e) }
        ensures kept { IfErr result (λ e. take at block.new ≡ take at block.old) };

    /// Whether it looks for the indexes of plain lines together: `look_ahead` is then asked for their
    /// places.
    #[inline(always)]
    fn looks_ahead(&self) -> bool {
        false
    }

    /// Where `put` is to look for an index that is on no line that was looked up ahead: at `place`, where the
    /// one before it was found, or elsewhere. It may be any.
    #[inline(always)]
    fn look_for(&self, _index: u64, place: usize) -> usize {
        place
    }

    /// The places at which `put` looks for the indexes of the next lines, at most 16, one for each;
    /// `None` if each is looked for at the place that the one before it left. They may be any.
    #[inline(always)]
    fn look_ahead(&self, _indexes: &[u64], _place: usize) -> Option<[usize; LINES]> {
        None
    }
}

/// Puts the line of a result's value into a block from the byte `at` on, and returns where it ends.
///
/// # Errors
///
/// The result's own.
#[inline(always)]
pub fn put_result<L: Line + Drop>(
    value: Result<L, H3Error>,
    block: &mut [u8; BLOCK],
    at: usize,
) -> Result<usize, H3Error>
    requires room { at + 112 ≤ 32768 }
    ensures end { IfOk result (λ end. end ≤ at + 112) }
    ensures ok { IfOk result (λ end.
        Puts (printed L.line_of value) block.old block.new at end) }
    ensures err { IfErr result (λ e. printed L.line_of value ≡ refused e) }
    ensures kept { IfErr result (λ e. take at block.new ≡ take at block.old) }
{
    Ok(value?.put(block, at))
}

/// The index that a line parses as, `None` where it is blank; or the error of a line that is too
/// long.
fn index_on(line: &[u8]) -> Result<Option<Option<u64>>, H3Error>
    ensures { (answer : Option ℕ → Answer) →
        line_answer answer line.now ≡ answer_said answer result }
{
    if line.len() > LONGEST_LINE {
        return Err(H3Error::Failed);
    }
    match read_index(line) {
        Ok(index) => Ok(Some(Some(index))),
        Err(_) if is_blank_text(line) => Ok(None),
        Err(_) => Ok(Some(None)),
    }
}

/// Writes what is held back, and returns the error of a line, or the fault of the write.
#[cold]
pub(crate) fn stop<W: Sink>(out: &mut W, held: &[u8], error: H3Error) -> Stop
    ensures { (number : ℕ) → EndsBy (record { output = held.now; ending = Err (At number error) })
        (stopped_at number result) (sink_use W.taken W.has_failed out.old out.new) }
{
    match write_held(out, held) {
        Ok(()) => Stop::Refused(error),
        Err(_) => Stop::Fault(Fault::Write),
    }
}

/// Writes what is held back, and returns the error of the line with this number, or the fault of the
/// write.
#[cold]
pub fn refuse<W: Sink>(out: &mut W, held: &[u8], number: u64, error: H3Error) -> RunError
    ensures { EndsBy (record { output = held.now; ending = Err (At number error) })
        result (sink_use W.taken W.has_failed out.old out.new) }
{
    stop(out, held, error).at(number)
}

/// The answers held back, in a block that is written when it is full, the number of the next line,
/// and the place at which its index is looked for.
#[derive(Drop)]
pub(crate) struct Output<'a, W> {
    pub(crate) out: &'a mut W,
    pub(crate) number: u64,
    pub(crate) place: usize,
    pub(crate) block: [u8; BLOCK],
    pub(crate) end: usize,
    ghost within: { end ≤ BLOCK },
}

/// What answers the index on a line, after the answers held back.
// What only an error or a full block needs is read where there is one, so all of it is passed on in
// one place.
pub(crate) trait Answering {
    /// The answer to an index, or to a word that parses as none.
    ghost answer_of: { Self → Option ℕ → Answer };

    /// How many numbers it needs.
    ghost needs: { Self → ℕ };

    /// Puts the answer to the index on the next line. What has no room is written. The numbers are
    /// unspecified afterwards.
    fn answer<'a, W: Sink>(
        &self,
        index: Option<u64>,
        held: &mut Output<'a, W>,
        numbers: &mut [u32],
    ) -> Result<(), Stop>
        requires few { held.old.number < 2 ^ 63 }
        requires room { needs self.now ≤ length numbers.old }
        ensures ok { OnOk result ((line : Piece) →
            line_answer (answer_of self.now) line.0 ≡ answer_of self.now index →
            Answered W.taken W.has_failed (lines_from (answer_of self.now)) held.old.number
            held.new.number (take held.old.end held.old.block) (take held.new.end held.new.block)
            held.old.out.now held.new.out.now (line ∷ [])) }
        ensures counted { OnOk result (held.new.number ≡ held.old.number + 1) }
        ensures err { IfErr result (λ s. (line : Piece) →
            line_answer (answer_of self.now) line.0 ≡ answer_of self.now index →
            (later : List Piece) →
            RefusesLines (answer_of self.now) held.old.number (take held.old.end held.old.block)
            (line ∷ later) (stopped_at held.new.number s)
            (sink_use W.taken W.has_failed held.old.out.now held.new.out.now)) }
        ensures sink { held.new.out.ghost_name ≡ held.old.out.ghost_name };

    /// As `AnswerLine` has it.
    #[inline(always)]
    fn looks_ahead(&self) -> bool {
        false
    }

    /// As `AnswerLine` has it.
    #[inline(always)]
    fn look_ahead(&self, _indexes: &[u64], _place: usize) -> Option<[usize; LINES]> {
        None
    }
}

/// A function whose answer to an index fits into a block.
#[derive(Drop)]
struct Short<'f, F> {
    function: &'f F,
}

impl<'f, F: AnswerLine> Answering for Short<'f, F> {
    ghost answer_of = { λ f. F.answer_of f.function.now };

    ghost needs = { λ f. 0 };

    #[inline(always)]
    fn answer<'a, W: Sink>(
        &self,
        index: Option<u64>,
        held: &mut Output<'a, W>,
        _numbers: &mut [u32],
    ) -> Result<(), Stop> {
        let at = make_room(held.out, &mut held.block, held.end)?;
        match self
            .function
            .put(index, &mut held.place, &mut held.block, at)
        {
            Ok(last) => {
                held.end = last;
                held.number += 1;
                Ok(())
            }
            Err(error) => {
                let bytes = &held.block[..at];
                Err(stop(held.out, bytes, error))
            }
        }
    }

    #[inline(always)]
    fn looks_ahead(&self) -> bool {
        self.function.looks_ahead()
    }

    #[inline(always)]
    fn look_ahead(&self, indexes: &[u64], place: usize) -> Option<[usize; LINES]> {
        self.function.look_ahead(indexes, place)
    }
}

/// The answers to the lines of a list.
#[derive(Drop)]
struct Answers<'a, 'f, W, A: Answering> {
    held: Output<'a, W>,
    function: &'f A,
    numbers: &'f mut [u32],
    ghost room: { A.needs function.now ≤ length numbers.now },
}

impl<'a, 'f, W: Sink, A: Answering> JobContract for Answers<'a, 'f, W, A> {
    ghost longest = { LONGEST_LINE };

    ghost count = { λ v. v.held.number };

    ghost settled = { λ v. v.held.end ≡ 0 };

    ghost taken = { λ v rows w.
        Answered W.taken W.has_failed (lines_from (A.answer_of v.function.now)) v.held.number
        w.held.number (take v.held.end v.held.block) (take w.held.end w.held.block)
        v.held.out.now w.held.out.now rows
        × (w.function ≡ v.function) × (w.held.out.ghost_name ≡ v.held.out.ghost_name) };

    ghost refused = { λ v rows w e.
        RefusesLines (A.answer_of v.function.now) v.held.number (take v.held.end v.held.block)
        rows e (sink_use W.taken W.has_failed v.held.out.now w.held.out.now)
        × (w.held.out.ghost_name ≡ v.held.out.ghost_name) };

    fn refuse_long(&mut self) -> RunError {
        let held = &mut self.held;
        let bytes = &held.block[..held.end];
        refuse(held.out, bytes, held.number, H3Error::Failed)
    }

    fn settle(&mut self) -> Result<(), RunError> {
        let held = &mut self.held;
        let bytes = &held.block[..held.end];
        write_held(held.out, bytes)?;
        held.end = 0;
        Ok(())
    }

    ghost none_taken = { λ v. (answered_none _ _ _ _ _ _, refl, refl) };

    ghost taken_then = { λ u v w xs ys p q. (
      answered_then _ _ (λ f. lines_from (A.answer_of f.now)) xs ys p.1 p.0 q.0,
      q.1 ∙ p.1,
      q.2 ∙ p.2,
    ) };

    ghost refused_then = { λ u v w xs ys e p q. (
      (q.0.0, refuses_then _ _ (λ f. lines_from (A.answer_of f.now)) _ xs ys e p.1 p.0 q.0.1),
      q.1 ∙ p.2,
    ) };
}

impl<'a, 'f, W: Sink, A: Answering> IndexJob for Answers<'a, 'f, W, A> {
    ghost line = { λ v. v.held.number };

    fn line(&self) -> u64 {
        self.held.number
    }

    #[inline(always)]
    fn take_index(&mut self, index: u64, place: Option<usize>) -> Result<(), Stop> {
        let held = &mut self.held;
        held.place = place.unwrap_or(held.place);
        self.function.answer(Some(index), held, self.numbers)
    }

    #[inline(always)]
    fn looks_ahead(&self) -> bool {
        self.function.looks_ahead()
    }

    #[inline(always)]
    fn look_ahead(&self, indexes: &[u64]) -> Option<[usize; LINES]> {
        self.function.look_ahead(indexes, self.held.place)
    }
}

impl<'a, 'f, W: Sink, A: Answering> Job for Answers<'a, 'f, W, A> {
    fn take(&mut self, line: &[u8], _inside: bool) -> Result<(), RunError> {
        let held = &mut self.held;
        match index_on(line) {
            Ok(Some(index)) => match self.function.answer(index, held, self.numbers) {
                Ok(()) => Ok(()),
                Err(stop) => Err(stop.at(held.number)),
            },
            Ok(None) => {
                held.number += 1;
                Ok(())
            }
            Err(error) => {
                let bytes = &held.block[..held.end];
                Err(refuse(held.out, bytes, held.number, error))
            }
        }
    }

    #[inline(always)]
    fn take_first<'b>(
        &mut self,
        _quotes: bool,
        bytes: &'b [u8],
    ) -> Result<Option<&'b [u8]>, RunError> {
        take_plain(self, bytes)
    }
}

/// Answers each line of a list, read in pages.
fn answer_lines<'a, 'f, R: Source, W: Sink, A: Answering>(
    answers: &mut Answers<'a, 'f, W, A>,
    input: &mut R,
    page: &mut Vec<u8>,
) -> Result<(), RunError>
    requires first { answers.old.held.number ≡ 1 }
    requires empty { answers.old.held.end ≡ 0 }
    requires page { LONGEST_LINE + PAGE ≤ vec_capacity page.old }
    ensures ends { EndsEach (A.answer_of answers.old.function.now)
        (R.left input.old) (R.left input.new)
        (R.has_failed input.old) (R.has_failed input.new) result
        (sink_use W.taken W.has_failed answers.old.held.out.now answers.new.held.out.now) }
    ensures same { answers.new.held.out.ghost_name ≡ answers.old.held.out.ghost_name }
{
    let mut reader = CountedReader::new(&mut *input, MAX_READS);
    let ending = drive(answers, &mut reader, false, LONGEST_LINE, PAGE, page);
    // The proof reads what the source is after the reads from this use of it.
    let _ = &*input;
    ending
}

/// The same to a sink.
// Inlined, its block would take its place on the stack while the caller runs a writer.
#[inline(never)]
pub(crate) fn answer_pages<R: Source, W: Sink, A: Answering>(
    function: &A,
    numbers: &mut [u32],
    input: &mut R,
    out: &mut W,
    page: &mut Vec<u8>,
) -> Result<(), RunError>
    requires page { LONGEST_LINE + PAGE ≤ vec_capacity page.old }
    requires room { A.needs function.now ≤ length numbers.old }
    ensures { EndsEach (A.answer_of function.now) (R.left input.old) (R.left input.new)
        (R.has_failed input.old) (R.has_failed input.new) result
        (sink_use W.taken W.has_failed out.old out.new) }
{
    let held = Output {
        out: &mut *out,
        number: 1,
        place: 0,
        block: [0; BLOCK],
        end: 0,
    };
    let mut answers = Answers {
        held,
        function,
        numbers,
    };
    let ending = answer_lines(&mut answers, input, page);
    // The proof reads what the sink is after the writes from this use of it.
    let _ = &*out;
    ending
}

/// Answers each line of a list that is not blank, in order, up to its end or its first error.
///
/// A line of more than 64 bytes is `Failed`; any other is answered as the index that it parses as,
/// or as a word that parses as none. The answers are written page by page, as the list is read; a
/// line that a read fault cuts is not answered. Nothing is read once a line has an error or a write
/// fails.
///
/// # Errors
///
/// The first one that is met, of:
///
/// - `AnswerError::At` with the line of the first error.
/// - `Fault::Read` if a read fails, or the end is not found in 2^40 reads.
/// - `Fault::Write` if a push or a flush fails.
/// - `Fault::Memory` if there is no memory for the page.
pub fn answer_each<R: Source, W: Sink, F: AnswerLine>(
    alloc: Global,
    function: &F,
    input: &mut R,
    out: &mut W,
) -> Result<(), RunError>
    ensures { EndsEach (F.answer_of function.now) (R.left input.old) (R.left input.new)
        (R.has_failed input.old) (R.has_failed input.new) result
        (sink_use W.taken W.has_failed out.old out.new) }
{
    let mut page = row_page(alloc, LONGEST_LINE, PAGE)?;
    answer_pages(&Short { function }, &mut [], input, out, &mut page)
}
