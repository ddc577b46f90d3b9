//! What the observer keeps and shows.
use pg_audit::FalseLine;
use pg_dict::Dictionary;
use pg_explain::{
    Before, ComparedLine, Deed, Fault, Letters, MEMORY, RefusalCase, Wrong, explain, is_output,
};
use pg_patterns::PatternSet;
use pg_translate::Table;
use pg_types::{Params, next_line};
use pg_visible::visible;
use pg_watch::{PassProgress, RefusedFile, Screen, Step, SweepRun, Watch, line_text};
use std::alloc::Global;
use std::cell::{Cell, RefCell};
use std::io::Write;
use std::time::Clock;

/// How many bytes of a name are shown at most.
const NAME: usize = 48;

/// A file that was read or written.
#[derive(Drop)]
struct Call {
    deed: Deed,
    name: String,
}

/// An observer that shows where a call is, and keeps what explains its answer. Where memory is
/// short, less is kept.
#[derive(Drop)]
pub struct Messages<'a, C, N: Drop, E: Drop> {
    alloc: Global,
    screen: Screen<'a, C, E>,
    names: N,
    /// The name by which the program was called.
    program: String,
    /// The first argument.
    command: RefCell<String>,
    /// Which run of a sweep goes on.
    sweep_run: Cell<Option<SweepRun>>,
    /// The files that were read and written, in this order.
    calls: RefCell<Vec<Call>>,
    /// Whether the last of them failed.
    failed: Cell<bool>,
    /// Whether the answer was a fault.
    fault: Cell<bool>,
    /// The name of the translate file.
    letters: RefCell<String>,
    /// Why a file is refused, or a given one is not the wanted one.
    reason: RefCell<Vec<u8>>,
    /// What is said although all went well.
    notes: RefCell<Vec<u8>>,
}

/// The line of a text with this number, counted from 1, with its line feed.
fn line_at(text: &[u8], number: u64) -> Option<&[u8]> {
    let mut rest = text;
    let mut left = number;
    'lines: while let Some((_, after)) = next_line(rest) {
        left = left.saturating_sub(1);
        if left == 0 {
            return Some(&rest[..rest.len() - after.len()]);
        }
        rest = after;
    }
    None
}

/// Whether a word of a dictionary takes part.
fn has_part(dictionary: &Dictionary, letters: &Table) -> bool {
    'words: for i in 0..dictionary.len() {
        if letters.reach(dictionary.word(i).signs().len()).is_some() {
            return true;
        }
    }
    false
}

/// The first bytes of a name, with its control bytes made visible.
fn shown_name(alloc: Global, name: &str) -> Vec<u8> {
    match visible(alloc, name.as_bytes(), NAME) {
        Ok(name) => name,
        Err(_) => Vec::new(alloc),
    }
}

impl<'a, C: Clock, N: Names + Drop, E: Write + Drop> Messages<'a, C, N, E> {
    /// An observer of a call of the program with this name, on standard error. `is_shown` says
    /// whether it shows where the call is.
    pub fn new(
        alloc: Global,
        program: String,
        names: N,
        clock: &'a C,
        err: E,
        is_shown: bool,
    ) -> Messages<'a, C, N, E> {
        Messages {
            alloc,
            screen: Screen::new(clock, err, is_shown),
            names,
            program,
            command: RefCell::new(String::new(alloc)),
            sweep_run: Cell::new(None),
            calls: RefCell::new(Vec::new(alloc)),
            failed: Cell::new(false),
            fault: Cell::new(false),
            letters: RefCell::new(String::new(alloc)),
            reason: RefCell::new(Vec::new(alloc)),
            notes: RefCell::new(Vec::new(alloc)),
        }
    }

    /// Shows what the call does, if a line is due now.
    fn step(&self, step: &Step, name: &str) {
        let Some(seconds) = self.screen.due() else {
            return;
        };
        let Ok(command) = self.command.try_borrow() else {
            return;
        };
        let sweep_run = self.sweep_run.get();
        let name = shown_name(self.alloc, name);
        if let Ok(line) = line_text(
            self.alloc,
            &command,
            seconds,
            sweep_run.as_ref(),
            step,
            &name,
        ) {
            self.screen.show(&line);
        }
    }

    /// Keeps that a file is read or written, and shows it.
    fn call(&self, deed: Deed, step: &Step, name: &str) {
        self.step(step, name);
        if let (Ok(name), Ok(mut calls)) = (
            String::from_str(self.alloc, name),
            self.calls.try_borrow_mut(),
        ) {
            let _ = calls.push(Call { deed, name });
        }
    }

    /// Keeps what explains the answer.
    fn explains(&self, wrong: &Wrong<'_>) {
        if let Ok(text) = explain(self.alloc, wrong) {
            let _ = self.reason.try_replace(text);
        }
    }

    /// Keeps a note.
    fn notes(&self, wrong: &Wrong<'_>) {
        if let (Ok(text), Ok(mut notes)) = (
            explain(self.alloc, wrong),
            self.notes.try_borrow_mut(),
        ) {
            let _ = notes.extend_from_slice(&text);
        }
    }

    /// Keeps the first argument, with which the line of progress begins. Then it says on standard
    /// error of each file that is to be written what is seen to be in the way.
    pub fn take_arguments(&self, arguments: &[String]) {
        if let Some(first) = arguments.first() {
            if let Ok(command) = String::from_str(self.alloc, first) {
                let _ = self.command.try_replace(command);
            }
        }
        for (index, argument) in arguments.iter().enumerate() {
            if is_output(arguments, index) {
                self.put_output(argument.as_str());
            }
        }
    }

    /// Puts what is seen to be in the way of a file that is to be written.
    fn put_output(&self, name: &str) {
        let obstacle = self.names.obstacle(self.alloc, name);
        let obstacle = obstacle.as_deref().unwrap_or("");
        self.put_wrong(&Wrong::Output { name, obstacle });
    }

    /// Puts a text on standard error.
    pub fn put(&self, text: &[u8]) {
        self.screen.clear();
        self.screen.put(text);
    }

    /// Puts what explains the answer on standard error.
    fn put_wrong(&self, wrong: &Wrong<'_>) {
        if let Ok(text) = explain(self.alloc, wrong) {
            self.put(&text);
        }
    }

    /// Puts on standard error what is wrong with these arguments.
    pub fn put_arguments(&self, arguments: &[String]) {
        let program = self.program.as_str();
        self.put_wrong(&Wrong::Arguments { program, arguments });
    }

    /// Puts on standard error why a file is refused, or a given one is not the wanted one.
    pub fn put_reason(&self) {
        if let Ok(reason) = self.reason.try_borrow() {
            self.put(&reason);
        }
    }

    /// Puts the notes on standard error.
    pub fn put_notes(&self) {
        if let Ok(notes) = self.notes.try_borrow() {
            self.put(&notes);
        }
    }

    /// Puts on standard error that memory was short. It takes no memory.
    pub fn put_memory(&self) {
        self.put(MEMORY);
    }

    /// Keeps that the answer was a fault, until the reason of the system is asked.
    pub fn keep_fault(&self) {
        self.fault.set(true);
    }

    /// If the answer was a fault, puts on standard error why a file could not be read or written,
    /// or a line could not be put. It gives the reason of the system, and says what was done before
    /// with the same file.
    pub fn put_fault(&self, reasons: &Reasons<'_>) {
        if !self.fault.get() {
            return;
        }
        if let Ok(calls) = self.calls.try_borrow() {
            let fault = fault_of(&calls, self.failed.get(), reasons, &self.names);
            self.put_wrong(&Wrong::Fault(fault));
        }
    }
}

/// Why calls failed, in the words of the system. A reason is empty where no such call failed, and
/// where the system gave none.
#[derive(Clone, Copy, Debug)]
pub struct Reasons<'a> {
    /// The reason of the last call on files that failed.
    pub files: &'a str,
    /// The reason of the last put that failed.
    pub puts: &'a str,
}

/// What knows the files behind names.
pub trait Names {
    /// Whether the two names are of one file.
    fn is_same(&self, one: &str, other: &str) -> bool;

    /// Why writing the file of this name will fail; none where nothing is seen to be in the way, and
    /// where memory is short. Nothing is opened and nothing made.
    fn obstacle(&self, alloc: Global, name: &str) -> Option<String>;
}

/// The fault of the last of these calls, if it failed; else that of a put. A write may have failed
/// since its file was read or written before.
fn fault_of<'b, N: Names>(
    calls: &'b [Call],
    failed: bool,
    reasons: &Reasons<'b>,
    names: &N,
) -> Fault<'b> {
    match calls.split_last() {
        Some((last, earlier)) if failed => Fault {
            deed: last.deed,
            name: &last.name,
            reason: reasons.files,
            before: match last.deed {
                Deed::Writing => before_of(earlier, last, names),
                Deed::Reading | Deed::Printing => None,
            },
        },
        _ => Fault {
            deed: Deed::Printing,
            name: "",
            reason: reasons.puts,
            before: None,
        },
    }
}

/// The first of the earlier calls on the file of the last one.
fn before_of<'b, N: Names>(earlier: &'b [Call], last: &Call, names: &N) -> Option<Before<'b>> {
    'calls: for call in earlier {
        if names.is_same(&call.name, &last.name) {
            return Some(Before {
                deed: call.deed,
                name: &call.name,
            });
        }
    }
    None
}

impl<'a, C: Clock, N: Names + Drop, E: Write + Drop> Watch for Messages<'a, C, N, E> {
    fn reads(&self, name: &str) {
        self.call(Deed::Reading, &Step::Reading, name);
    }

    fn writes(&self, name: &str) {
        self.call(Deed::Writing, &Step::Writing, name);
    }

    fn letters(&self, name: &str) {
        if let Ok(name) = String::from_str(self.alloc, name) {
            let _ = self.letters.try_replace(name);
        }
    }

    fn patterns(&self, name: &str, bytes: &[u8]) {
        self.notes(&Wrong::Behind {
            patterns: name,
            bytes,
        });
    }

    fn words(&self, name: &str, dictionary: &Dictionary, letters: &Table) {
        if dictionary.len() == 0 {
            self.notes(&Wrong::NoWord { dict: name });
        } else if !has_part(dictionary, letters) {
            self.notes(&Wrong::NoPart {
                dict: name,
                words: dictionary.len(),
                left: letters.left(),
                right: letters.right(),
            });
        }
    }

    fn refuses(&self, refused: &RefusedFile<'_>) {
        let Ok(name) = self.letters.try_borrow() else {
            return;
        };
        let letters = refused.letters.map(|table| Letters { name: &name, table });
        self.explains(&Wrong::Refused(RefusalCase {
            name: refused.name,
            bytes: refused.bytes,
            refusal: refused.refusal,
            letters,
        }));
    }

    fn selects(&self, name: &str, params: &Params, start: &PatternSet) {
        if params.count() > 0 && start.largest() >= params.start() {
            self.notes(&Wrong::LowStart {
                patterns: name,
                largest: start.largest(),
                start: params.start(),
            });
        }
    }

    fn sweep_run(&self, sweep_run: SweepRun) {
        self.sweep_run.set(Some(sweep_run));
    }

    fn round(&self, round: u64) {
        self.step(&Step::Round(round), "");
    }

    fn pass(&self, pass: PassProgress) {
        self.step(&Step::Pass(pass), "");
    }

    fn false_line(&self, name: &str, line: &FalseLine<'_>, text: &[u8]) {
        let found = if line.found.is_empty() {
            None
        } else {
            Some(line.found)
        };
        self.explains(&Wrong::False(ComparedLine {
            name,
            line: line.line as usize,
            found,
            wanted: line_at(text, line.line),
        }));
    }

    fn fails(&self) {
        self.failed.set(true);
    }

    fn answers(&self) {
        self.screen.clear();
    }
}
