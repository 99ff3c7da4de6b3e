// One story told to every kind of store.
ghost use Rattle.std.specs.Prelude.{◌≡◌, IfOk, OnOk};
ghost use Rattle.store.specs.Swaps.{lent_swapped};
ghost use Rattle.tour.specs.StoreSteps.{answer_to, in_window, with_windows, words_after, words_after_all};

use book::{MOST_WORDS, Refusal};
use std::{fmt, io};
use store::Store;
use store::byte::WORD_BYTES;
use store::lent::{LentStore, MemoryCell, swap_lent};
use store::swap::swap_words;
use store::window::Window;

// What can be done to a store.
// A step is data and no closure: it is printed, and definitions go by its cases.
#[derive(Clone, Copy, Debug, PartialEq, Eq)]
pub enum StoreStep {
    Read { word: usize },
    Write { word: usize, value: u32 },
    Swap { a: usize, b: usize },
}

impl fmt::Display for StoreStep {
    fn fmt<W: fmt::Write>(&self, f: &mut fmt::Formatter<W>) -> fmt::Result {
        match *self {
            StoreStep::Read { word } => write!(f, "read {word}"),
            StoreStep::Write { word, value } => write!(f, "write {word} {value}"),
            StoreStep::Swap { a, b } => write!(f, "swap {a} {b}"),
        }
    }
}

// What is answered to a step: a value where one was asked for, or why it was refused.
#[derive(Clone, Copy, Debug, PartialEq, Eq)]
struct StoreAnswer(Result<Option<u32>, Refusal>);

impl fmt::Display for StoreAnswer {
    fn fmt<W: fmt::Write>(&self, f: &mut fmt::Formatter<W>) -> fmt::Result {
        match self.0 {
            Ok(Some(value)) => write!(f, "value {value}"),
            Ok(None) => write!(f, "ok"),
            Err(refusal) => {
                let number = u8::from(refusal);
                write!(f, "refused {number}")
            }
        }
    }
}

// Does one step; a reading gives the word.
fn perform<S: Store>(store: &mut S, step: StoreStep) -> Result<Option<u32>, Refusal>
    ensures answer { result ≡ answer_to step (S.words store.old) }
    ensures after { S.words store.new ≡ words_after step (S.words store.old) }
    ensures aside { S.footing store.new ≡ S.footing store.old }
{
    match step {
        StoreStep::Read { word } => return Ok(Some(store.read(word)?)),
        StoreStep::Write { word, value } => store.write(word, value)?,
        StoreStep::Swap { a, b } => swap_words(store, a, b)?,
    }
    Ok(None)
}

// Prints how many words a store has, does some steps, and prints each with its answer.
fn show_steps<S: Store>(rt: &impl Print, store: &mut S, steps: &[StoreStep]) -> io::Result<()>
    ensures after { OnOk result (S.words store.new ≡ words_after_all steps.now (S.words store.old)) }
    ensures aside { S.footing store.new ≡ S.footing store.old }
{
    let count = store.len();
    println!(rt; "  {count} words")?;
    for step in steps {
        let answer = StoreAnswer(perform(store, *step));
        println!(rt; "  {step}: {answer}")?;
    }
    Ok(())
}

// Prints that an opening was refused.
fn show_refusal(rt: &impl Print, refusal: Refusal) -> io::Result<()> {
    let answer = StoreAnswer(Err(refusal));
    println!(rt; "  {answer}")
}

// Does some steps on a window of a store, and gives the store back: the words outside the window are as they were.
#[tactic(auto, using(crate::proofs::Within::seen))]
fn show_window<S: Store + Drop>(
    rt: &impl Print,
    store: S,
    first: u32,
    count: u32,
    steps: &[StoreStep],
) -> io::Result<S>
    ensures after { IfOk result (λ s. S.words s ≡ in_window first count (words_after_all steps.now) (S.words store)) }
    ensures aside { IfOk result (λ s. S.footing s ≡ S.footing store) }
{
    println!(rt; "window of {count} words from word {first} on")?;
    match Window::open(store, first, count) {
        Ok(mut window) => {
            show_steps(rt, &mut window, steps)?;
            Ok(window.close())
        }
        Err(unopened) => {
            show_refusal(rt, unopened.refusal)?;
            Ok(unopened.back)
        }
    }
}

// Does some steps on a window of a window of a store, and gives the store back. Shared with `show_window` through a closure,
// the clauses would have to speak of what the closure does.
fn show_nested<S: Store + Drop>(rt: &impl Print, store: S, steps: &[StoreStep]) -> io::Result<S>
    ensures after { IfOk result (λ s. S.words s ≡ in_window 1 4 (in_window 0 2 (words_after_all steps.now)) (S.words store)) }
    ensures aside { IfOk result (λ s. S.footing s ≡ S.footing store) }
{
    println!(rt; "window of 4 words from word 1 on, and in it:")?;
    match Window::open(store, 1, 4) {
        Ok(window) => {
            let window = show_window(rt, window, 0, 2, steps)?;
            Ok(window.close())
        }
        Err(unopened) => {
            show_refusal(rt, unopened.refusal)?;
            Ok(unopened.back)
        }
    }
}

// What is told to every store.
const STORY: &[StoreStep] = &[
    StoreStep::Read { word: 0 },
    StoreStep::Write {
        word: 1,
        value: 0x1234_5678,
    },
    StoreStep::Read { word: 1 },
    StoreStep::Swap { a: 0, b: 2 },
    StoreStep::Read { word: 2 },
    StoreStep::Read { word: 3 },
    StoreStep::Write { word: 3, value: 7 },
    StoreStep::Read { word: MOST_WORDS },
    StoreStep::Swap {
        a: 0,
        b: MOST_WORDS,
    },
];

// Tells the story to a store, to a window of it and to a window of a window, and gives the store back.
fn show_with_windows<S: Store + Drop>(
    rt: &impl Print,
    mut store: S,
    steps: &[StoreStep],
) -> io::Result<S>
    ensures after { IfOk result (λ s. S.words s ≡ with_windows (words_after_all steps.now) (S.words store)) }
    ensures aside { IfOk result (λ s. S.footing s ≡ S.footing store) }
{
    show_steps(rt, &mut store, steps)?;
    let store = show_window(rt, store, 2, 3, steps)?;
    show_nested(rt, store, steps)
}

// Asks for a window and does nothing on it, and gives the store back as it was.
#[tactic(auto, using(crate::proofs::Within::nothing_done))]
fn ask_for_window<S: Store + Drop>(
    rt: &impl Print,
    store: S,
    first: u32,
    count: u32,
) -> io::Result<S>
    ensures after { IfOk result (λ s. S.words s ≡ S.words store) }
    ensures aside { IfOk result (λ s. S.footing s ≡ S.footing store) }
{
    show_window(rt, store, first, count, &[])
}

// Asks for windows that are empty or reach outside a store of six words.
fn show_bad_windows<S: Store + Drop>(rt: &impl Print, store: S) -> io::Result<S>
    ensures after { IfOk result (λ s. S.words s ≡ S.words store) }
    ensures aside { IfOk result (λ s. S.footing s ≡ S.footing store) }
{
    let store = ask_for_window(rt, store, 0, 0)?;
    let store = ask_for_window(rt, store, 5, 2)?;
    let store = ask_for_window(rt, store, 6, 1)?;
    ask_for_window(rt, store, u32::MAX, u32::MAX)
}

// A kind of memory, as it is shown.
trait ShownCell: MemoryCell {
    // What a cell is called.
    const NAME: &'static str;

    // Writes cells, after a blank. A call and no `Display`, since it prints a slice.
    fn fmt_cells<W: fmt::Write>(memory: &[Self], f: &mut fmt::Formatter<W>) -> fmt::Result;
}

// Numbers are shown as a list.
impl ShownCell for u32 {
    const NAME: &'static str = "number";

    fn fmt_cells<W: fmt::Write>(memory: &[u32], f: &mut fmt::Formatter<W>) -> fmt::Result {
        write!(f, " {memory:?}")
    }
}

// Bytes are shown in hexadecimal.
impl ShownCell for u8 {
    const NAME: &'static str = "byte";

    fn fmt_cells<W: fmt::Write>(memory: &[u8], f: &mut fmt::Formatter<W>) -> fmt::Result {
        for byte in memory {
            write!(f, " {byte:02X}")?;
        }
        Ok(())
    }
}

// What memory holds.
#[derive(Drop)]
struct Memory<'a, T>(&'a [T]);

impl<T: ShownCell> fmt::Display for Memory<'_, T> {
    fn fmt<W: fmt::Write>(&self, f: &mut fmt::Formatter<W>) -> fmt::Result {
        T::fmt_cells(self.0, f)
    }
}

// Prints what memory holds.
fn show_memory<T: ShownCell>(rt: &impl Print, memory: &[T]) -> io::Result<()> {
    let memory = Memory(memory);
    println!(rt; "memory:{memory}")
}

// Opens a store on some memory, tells it the story, and gives it up. No clause says what the memory then holds: the loan
// goes through the `Result` of the opening, and the checker does not follow it there.
fn show_store<T: ShownCell>(rt: &impl Print, memory: &mut [T]) -> io::Result<()> {
    let name = T::NAME;
    let count = memory.len();
    println!(rt; "{name} store on {count} {name}s")?;
    match LentStore::open(memory) {
        Ok(store) => {
            let store = show_with_windows(rt, store, STORY)?;
            let store = show_bad_windows(rt, store)?;
            show_memory(rt, store.close())
        }
        Err(unopened) => show_refusal(rt, unopened.refusal),
    }
}

// Swaps words of borrowed memory, with no store left open.
fn show_swap<T: ShownCell>(rt: &impl Print, memory: &mut [T]) -> io::Result<()>
    ensures { memory.new ≡ lent_swapped T.is_length T.words T.cells memory.old 0 5 }
{
    let name = T::NAME;
    let answer = StoreAnswer(swap_lent(memory, 0, 5).map(|()| None));
    println!(rt; "swap 0 5 in the {name}s: {answer}")
}

// Tries to open stores on memory that is no book.
fn show_bad_lengths(rt: &HostRuntime) -> anyhow::Result<()> {
    let mut words = vec![in rt.alloc(); 0u32; MOST_WORDS + 1]?;
    show_store::<u32>(rt, &mut [])?;
    show_store(rt, &mut words[..])?;
    let mut bytes = vec![in rt.alloc(); 0u8; WORD_BYTES * (MOST_WORDS + 1)]?;
    show_store::<u8>(rt, &mut [])?;
    show_store::<u8>(rt, &mut [1, 2, 3, 4, 5, 6])?;
    show_store(rt, &mut bytes[..])?;
    Ok(())
}

// Tells the story to every kind of store.
pub fn show(rt: &HostRuntime) -> anyhow::Result<()> {
    let mut words = [10u32, 11, 12, 13, 14, 15];
    show_store(rt, &mut words)?;
    let mut bytes = [
        0u8, 0, 0, 10, 0, 0, 0, 11, 0, 0, 0, 12, 0, 0, 0, 13, 0, 0, 0, 14, 0, 0, 0, 15,
    ];
    show_store(rt, &mut bytes)?;
    show_swap(rt, &mut words)?;
    show_swap(rt, &mut bytes)?;
    show_memory(rt, &words)?;
    show_memory(rt, &bytes)?;
    show_bad_lengths(rt)
}
