//! A terminal, on which a line is shown while a call works.
ghost use Rattle.std.specs.Prelude.{◌≡◌, ◌↔◌, IsTrue};
ghost use Rattle.std.specs.Option.{option_map};
ghost use Rattle.std.specs.Duration.{as_nanos};
ghost use Rattle.pg_watch.specs.Inside.Times.{IsDue, is_shown as is_shown_by};

use std::cell::{Cell, RefCell};
use std::io::Write;
use std::time::{Clock, Duration, Instant};

/// How many milliseconds a call works before the line is shown.
const FIRST: u64 = 1_000;

/// How many milliseconds the line stands at least before another takes its place.
const NEXT: u64 = 100;

/// Takes away what stands in the row of the cursor.
const CLEAR: &[u8] = b"\r\x1b[K";

/// Whether the line is shown now: a second after the start, and a tenth of a second after it was
/// last shown.
pub fn is_due(now: Duration, shown: Option<Duration>) -> bool
    ensures { IsTrue result ↔ IsDue (as_nanos now) (option_map as_nanos shown) }
{
    let is_late = now >= Duration::from_millis(FIRST);
    match shown {
        Some(shown) => is_late && now.saturating_sub(shown) >= Duration::from_millis(NEXT),
        None => is_late,
    }
}

/// Whether a line is shown at all, by the variable `PATGEN_PROGRESS` where it is `always` or
/// `never`, and else where standard error is a terminal.
pub fn is_shown(choice: Option<&str>, is_terminal: bool) -> bool
    ensures { result ≡ is_shown_by (option_map (λ choice. choice.now) choice.entry) is_terminal }
{
    match choice {
        Some(choice) => choice == "always" || (choice != "never" && is_terminal),
        None => is_terminal,
    }
}

/// Standard error, on which a line may be shown. A write to it may fail, and that changes nothing.
#[derive(Drop)]
pub struct Screen<'a, C, E: Drop> {
    clock: &'a C,
    /// When the call began, where a line is to be shown.
    start: Option<Instant>,
    /// When the line was last shown.
    shown: Cell<Option<Duration>>,
    /// Whether it stands there now.
    stands: Cell<bool>,
    err: RefCell<E>,
}

impl<'a, C: Clock, E: Write + Drop> Screen<'a, C, E> {
    /// Standard error, on which a line is shown or not.
    pub fn new(clock: &'a C, err: E, is_shown: bool) -> Screen<'a, C, E> {
        Screen {
            clock,
            start: if is_shown {
                Instant::now(clock).ok()
            } else {
                None
            },
            shown: Cell::new(None),
            stands: Cell::new(false),
            err: RefCell::new(err),
        }
    }

    /// The seconds since the start, where the line is to be shown now. It then counts as shown.
    pub fn due(&self) -> Option<u64> {
        let now = self.start?.elapsed(self.clock).ok()?;
        if is_due(now, self.shown.get()) {
            self.shown.set(Some(now));
            Some(now.as_secs())
        } else {
            None
        }
    }

    /// Puts bytes on standard error.
    pub fn put(&self, bytes: &[u8]) {
        if let Ok(mut err) = self.err.try_borrow_mut() {
            let _ = err.write_all(bytes);
            let _ = err.flush();
        }
    }

    /// Shows a line in place of the one that stands there.
    pub fn show(&self, line: &[u8]) {
        self.put(CLEAR);
        self.put(line);
        self.stands.set(true);
    }

    /// Takes the line away, where one stands there.
    pub fn clear(&self) {
        if self.stands.get() {
            self.put(CLEAR);
            self.stands.set(false);
        }
    }
}
