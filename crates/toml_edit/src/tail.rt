//! A sink that holds back what may be the newline of a last statement.
ghost use Rattle.std.specs.Prelude.{◌≡◌, ◌++◌, ◌-◌, ◌<◌, ◌≤◌, length, take, List, ℕ, [], ◌∷◌};
ghost use Rattle.std.specs.Fmt.{WritesInCalls};
ghost use Rattle.std.specs.Prelude.{Option};
ghost use Rattle.toml_edit_model.specs.Mode.{exact};
ghost use Rattle.toml_edit_model.specs.Tree.{Decor};
ghost use Rattle.toml_edit.specs.LastLines.{newline_of};
ghost use Rattle.toml_edit.specs.Tails.{tail_step, tail_after, tail_text};

use toml_edit_io::{Printed, Sink};

/// The end of a text that may be a newline: a carriage return (CR), a line feed (LF), both in this
/// order, or nothing.
#[derive(Clone, Copy)]
enum Tail {
    Nothing,
    Return,
    Feed,
    Both,
}

/// Returns the tail of a text that ended in `tail`, after one byte more.
fn step(tail: Tail, byte: u8) -> Tail
    ensures { result ≡ tail_step tail byte }
{
    match byte {
        b'\r' => Tail::Return,
        b'\n' => match tail {
            Tail::Return => Tail::Both,
            _ => Tail::Feed,
        },
        _ => Tail::Nothing,
    }
}

/// Returns the tail of a text that ended in `tail`, after these bytes more. It depends on the last
/// two of them.
fn tail_after(tail: Tail, bytes: &[u8]) -> Tail
    ensures { result ≡ tail_after tail bytes.now }
{
    let count = bytes.len();
    if count >= 2 {
        step(step(Tail::Nothing, bytes[count - 2]), bytes[count - 1])
    } else if count == 1 {
        step(tail, bytes[0])
    } else {
        tail
    }
}

/// Returns the tail as a text.
fn text_of(tail: Tail) -> &'static str
    ensures { result.now ≡ tail_text tail }
{
    match tail {
        Tail::Nothing => "",
        Tail::Return => "\r",
        Tail::Feed => "\n",
        Tail::Both => "\r\n",
    }
}

/// Returns the tail as a text, without its last `count` bytes.
fn text_before(tail: Tail, count: usize) -> &'static str
    ensures { result.now ≡ take (length (tail_text tail) - count) (tail_text tail) }
{
    match (tail, count) {
        (_, 0) => text_of(tail),
        (Tail::Both, 1) => "\r",
        _ => "",
    }
}

/// A sink that puts its texts into another one, and holds back the tail of all of them.
///
/// Only at the end is it known which newline is the last. Until then, the tail is put as soon as a
/// text after it shows that it is not.
#[derive(Drop)]
struct Held<'a, S> {
    out: &'a mut S,
    tail: Tail,
}

impl<S: Sink> Sink for Held<'_, S> {
    ghost use Rattle.toml_edit.specs.Holding.{Holds};

    ghost puts = { λ s text t. Holds S.puts s.tail s.out text t.tail t.out };

    fn put(&mut self, text: &str) {
        let tail = tail_after(self.tail, text.as_bytes());
        let held = text_of(tail).len();
        // A shorter text only adds to the tail.
        if held <= text.len() {
            self.out.put(text_of(self.tail));
            self.out.put(&text[..text.len() - held]);
        }
        self.tail = tail;
    }
}

/// Puts the text without the newline at its end, which has `count` bytes.
pub(crate) fn put_but_newline<T: Printed, S: Sink>(out: &mut S, printed: &T, count: usize)
    ensures { (d : Option Decor) → (front : List ℕ) → count ≡ length (newline_of exact d)
        → front ++ newline_of exact d ≡ T.text printed.now
        → WritesInCalls S.puts out.old front out.new }
{
    let mut held = Held {
        out,
        tail: Tail::Nothing,
    };
    printed.put_into(&mut held);
    let Held { out, tail } = held;
    out.put(text_before(tail, count))
}
