//! The commands of a script, and how a line spells them.

ghost use Rattle.std.specs.Prelude.{◌≡◌, ◌≢◌, ℕ, ◌<◌, ◌^◌, List, ◌∷◌, map, true, false, codes, IfOk, IfSome, IfNone, Option, Some};
ghost use Rattle.std.specs.Char.{is_ascii_digit};
ghost use Rattle.std.specs.List.{list_all};
ghost use Rattle.sctp_state.specs.Options.{SendOptions as Sending, send_options_of};
ghost use Rattle.sctp_world.specs.Command.{Asked, Spells, SpellsNone, SpellsWords, IsNumber, IsHex, IsFlag, IsNamed, SpellsId, SpellsLimit, SpellsLife, SpellsOptions, words_of};
ghost use Rattle.spec_world.specs.Observations.{End as tree, end_name};
ghost use Rattle.sctp_network_side.specs.SideView.{end_tree};
ghost use Rattle.sctp_world.specs.CommandView.{command_of};

use hex::FromHexError;
use sctp_network_side::{Call, End, Event};
use sctp_serial::{LifecycleId, Message, PpId, SocketTime, StreamId};
use sctp_state::SendOptions;
use std::alloc::{AllocError, Global};
use std::time::Duration;

/// A longer line is no command (bytes, without the newline).
const MAX_LINE: usize = 1048576;

/// What a line asks for.
#[derive(Debug, Drop)]
pub enum Command {
    /// `probe HEX`: what the bytes of a packet say.
    Probe(Vec<u8>),
    /// `connect X`, `shutdown X`, `close X`, `send X S P HEX ..`, `recv X`, `give X K Y`, `reset X S`, `foreign X HEX`: an
    /// event of the world.
    Event(Event),
    /// `time MS`: the time of both ends is advanced to the moment.
    Time(SocketTime),
    /// `show X K`: the packet of this number, from 0 on, that the end sent.
    Show(End, usize),
}

/// The words of `send` before its options.
#[derive(Clone, Copy)]
struct SendWords<'a> {
    end: &'a [u8],
    stream: &'a [u8],
    ppid: &'a [u8],
    payload: &'a [u8],
}

/// The command that the line spells, `None` where it spells none.
pub fn parse_command(alloc: Global, line: &[u8]) -> Result<Option<Command>, AllocError>
    ensures command { IfOk result (λ found. IfSome found (λ command. Spells line.now (command_of command))) }
    ensures none { IfOk result (λ found. IfNone found (SpellsNone line.now)) }
{
    if line.len() > MAX_LINE {
        return Ok(None);
    }
    let words = split_words(alloc, line)?;
    parse_words(alloc, &words)
}

fn split_words(alloc: Global, line: &[u8]) -> Result<Vec<&[u8]>, AllocError>
    ensures { IfOk result (λ words. map (λ word. word.now) words.items ≡ words_of line.now) }
{
    line.split(|b| *b == b' ').collect(alloc)
}

fn parse_words(alloc: Global, words: &[&[u8]]) -> Result<Option<Command>, AllocError>
    ensures command { IfOk result (λ found. IfSome found (λ command. SpellsWords (map (λ word. word.now) words.now) (command_of command))) }
    ensures none { IfOk result (λ found. IfNone found ((asked : Asked) → SpellsWords (map (λ word. word.now) words.now) asked → ⊥)) }
{
    match words.split_first() {
        Some((name, rest)) => parse_named(alloc, name, rest),
        None => Ok(None),
    }
}

/// The command that begins with this word.
fn parse_named(alloc: Global, name: &[u8], rest: &[&[u8]]) -> Result<Option<Command>, AllocError>
    ensures command { IfOk result (λ found. IfSome found (λ command. SpellsWords (name.now ∷ map (λ word. word.now) rest.now) (command_of command))) }
    ensures none { IfOk result (λ found. IfNone found ((asked : Asked) → SpellsWords (name.now ∷ map (λ word. word.now) rest.now) asked → ⊥)) }
{
    if is_word(name, b"probe") {
        parse_probe(alloc, rest)
    } else if is_word(name, b"connect") {
        Ok(parse_connect(rest))
    } else if is_word(name, b"shutdown") {
        Ok(parse_shutdown(rest))
    } else if is_word(name, b"close") {
        Ok(parse_close(rest))
    } else if is_word(name, b"reset") {
        parse_reset(alloc, rest)
    } else if is_word(name, b"foreign") {
        parse_foreign(alloc, rest)
    } else if is_word(name, b"send") {
        parse_send(alloc, rest)
    } else if is_word(name, b"recv") {
        Ok(parse_recv(rest))
    } else if is_word(name, b"give") {
        Ok(parse_give(rest))
    } else if is_word(name, b"time") {
        Ok(parse_time(rest))
    } else if is_word(name, b"show") {
        Ok(parse_show(rest))
    } else {
        Ok(None)
    }
}

/// `HEX`
fn parse_probe(alloc: Global, rest: &[&[u8]]) -> Result<Option<Command>, AllocError>
    ensures command { IfOk result (λ found. IfSome found (λ command. SpellsWords (codes "probe" ∷ map (λ word. word.now) rest.now) (command_of command))) }
    ensures none { IfOk result (λ found. IfNone found ((asked : Asked) → SpellsWords (codes "probe" ∷ map (λ word. word.now) rest.now) asked → ⊥)) }
{
    let [digits] = rest else {
        return Ok(None);
    };
    let Some(bytes) = bytes_of(alloc, digits)? else {
        return Ok(None);
    };
    Ok(Some(Command::Probe(bytes)))
}

/// `X`
fn parse_connect(rest: &[&[u8]]) -> Option<Command>
    ensures command { IfSome result (λ command. SpellsWords (codes "connect" ∷ map (λ word. word.now) rest.now) (command_of command)) }
    ensures none { IfNone result ((asked : Asked) → SpellsWords (codes "connect" ∷ map (λ word. word.now) rest.now) asked → ⊥) }
{
    let [end] = rest else {
        return None;
    };
    Some(Command::Event(Event::Call(end_of(end)?, Call::Connect)))
}

/// `X`
fn parse_shutdown(rest: &[&[u8]]) -> Option<Command>
    ensures command { IfSome result (λ command. SpellsWords (codes "shutdown" ∷ map (λ word. word.now) rest.now) (command_of command)) }
    ensures none { IfNone result ((asked : Asked) → SpellsWords (codes "shutdown" ∷ map (λ word. word.now) rest.now) asked → ⊥) }
{
    let [end] = rest else {
        return None;
    };
    Some(Command::Event(Event::Call(end_of(end)?, Call::Shutdown)))
}

/// `X`
fn parse_close(rest: &[&[u8]]) -> Option<Command>
    ensures command { IfSome result (λ command. SpellsWords (codes "close" ∷ map (λ word. word.now) rest.now) (command_of command)) }
    ensures none { IfNone result ((asked : Asked) → SpellsWords (codes "close" ∷ map (λ word. word.now) rest.now) asked → ⊥) }
{
    let [end] = rest else {
        return None;
    };
    Some(Command::Event(Event::Call(end_of(end)?, Call::Close)))
}

/// `X S`
fn parse_reset(alloc: Global, rest: &[&[u8]]) -> Result<Option<Command>, AllocError>
    ensures command { IfOk result (λ found. IfSome found (λ command. SpellsWords (codes "reset" ∷ map (λ word. word.now) rest.now) (command_of command))) }
    ensures none { IfOk result (λ found. IfNone found ((asked : Asked) → SpellsWords (codes "reset" ∷ map (λ word. word.now) rest.now) asked → ⊥)) }
{
    let [end, stream] = rest else {
        return Ok(None);
    };
    let Some(end) = end_of(end) else {
        return Ok(None);
    };
    let Some(stream) = half_number_of(stream) else {
        return Ok(None);
    };
    let streams = Vec::from_slice(alloc, &[StreamId(stream)])?;
    Ok(Some(Command::Event(Event::Call(end, Call::Reset(streams)))))
}

/// `X HEX`
fn parse_foreign(alloc: Global, rest: &[&[u8]]) -> Result<Option<Command>, AllocError>
    ensures command { IfOk result (λ found. IfSome found (λ command. SpellsWords (codes "foreign" ∷ map (λ word. word.now) rest.now) (command_of command))) }
    ensures none { IfOk result (λ found. IfNone found ((asked : Asked) → SpellsWords (codes "foreign" ∷ map (λ word. word.now) rest.now) asked → ⊥)) }
{
    let [end, digits] = rest else {
        return Ok(None);
    };
    let Some(end) = end_of(end) else {
        return Ok(None);
    };
    let Some(bytes) = bytes_of(alloc, digits)? else {
        return Ok(None);
    };
    Ok(Some(Command::Event(Event::Foreign(end, bytes))))
}

/// `X`
fn parse_recv(rest: &[&[u8]]) -> Option<Command>
    ensures command { IfSome result (λ command. SpellsWords (codes "recv" ∷ map (λ word. word.now) rest.now) (command_of command)) }
    ensures none { IfNone result ((asked : Asked) → SpellsWords (codes "recv" ∷ map (λ word. word.now) rest.now) asked → ⊥) }
{
    let [end] = rest else {
        return None;
    };
    Some(Command::Event(Event::Call(end_of(end)?, Call::Receive)))
}

/// `X K Y`
fn parse_give(rest: &[&[u8]]) -> Option<Command>
    ensures command { IfSome result (λ command. SpellsWords (codes "give" ∷ map (λ word. word.now) rest.now) (command_of command)) }
    ensures none { IfNone result ((asked : Asked) → SpellsWords (codes "give" ∷ map (λ word. word.now) rest.now) asked → ⊥) }
{
    let [from, number, to] = rest else {
        return None;
    };
    let end = end_of(to)?;
    if end_of(from)? == end {
        return None;
    }
    let number = number_of(number)?;
    Some(Command::Event(Event::Give(usize::try_from(number).ok()?, end)))
}

/// `MS`
fn parse_time(rest: &[&[u8]]) -> Option<Command>
    ensures command { IfSome result (λ command. SpellsWords (codes "time" ∷ map (λ word. word.now) rest.now) (command_of command)) }
    ensures none { IfNone result ((asked : Asked) → SpellsWords (codes "time" ∷ map (λ word. word.now) rest.now) asked → ⊥) }
{
    let [number] = rest else {
        return None;
    };
    let milliseconds = number_of(number)?;
    Some(Command::Time(SocketTime::zero() + Duration::from_millis(milliseconds)))
}

/// `X K`
fn parse_show(rest: &[&[u8]]) -> Option<Command>
    ensures command { IfSome result (λ command. SpellsWords (codes "show" ∷ map (λ word. word.now) rest.now) (command_of command)) }
    ensures none { IfNone result ((asked : Asked) → SpellsWords (codes "show" ∷ map (λ word. word.now) rest.now) asked → ⊥) }
{
    let [end, number] = rest else {
        return None;
    };
    let end = end_of(end)?;
    let number = number_of(number)?;
    Some(Command::Show(end, usize::try_from(number).ok()?))
}

/// `X S P HEX [unordered] [life MS] [rtx N] [id N]`
fn parse_send(alloc: Global, rest: &[&[u8]]) -> Result<Option<Command>, AllocError>
    ensures command { IfOk result (λ found. IfSome found (λ command. SpellsWords (codes "send" ∷ map (λ word. word.now) rest.now) (command_of command))) }
    ensures none { IfOk result (λ found. IfNone found ((asked : Asked) → SpellsWords (codes "send" ∷ map (λ word. word.now) rest.now) asked → ⊥)) }
{
    let [end, stream, ppid, payload, options @ ..] = rest else {
        return Ok(None);
    };
    let words = SendWords {
        end,
        stream,
        ppid,
        payload,
    };
    send_of(alloc, &words, options)
}

fn send_of(
    alloc: Global,
    words: &SendWords<'_>,
    options: &[&[u8]],
) -> Result<Option<Command>, AllocError>
    ensures command { IfOk result (λ found. IfSome found (λ command. let w = words.now in SpellsWords
        (codes "send" ∷ w.end.now ∷ w.stream.now ∷ w.ppid.now ∷ w.payload.now ∷ map (λ word. word.now) options.now) (command_of command))) }
    ensures none { IfOk result (λ found. IfNone found ((asked : Asked) → let w = words.now in
        SpellsWords (codes "send" ∷ w.end.now ∷ w.stream.now ∷ w.ppid.now ∷ w.payload.now ∷ map (λ word. word.now) options.now) asked → ⊥)) }
{
    let Some(end) = end_of(words.end) else {
        return Ok(None);
    };
    let Some(stream) = half_number_of(words.stream) else {
        return Ok(None);
    };
    let Some(ppid) = word_number_of(words.ppid) else {
        return Ok(None);
    };
    let Some(options) = options_of(options) else {
        return Ok(None);
    };
    let Some(payload) = bytes_of(alloc, words.payload)? else {
        return Ok(None);
    };
    let message = Message::new(StreamId(stream), PpId(ppid), payload);
    Ok(Some(Command::Event(Event::Call(end, Call::Send(message, options)))))
}

/// `[unordered] [life MS] [rtx N] [id N]`
fn options_of(words: &[&[u8]]) -> Option<SendOptions>
    ensures some { IfSome result (λ options. SpellsOptions (map (λ word. word.now) words.now) (send_options_of options)) }
    ensures none { IfNone result ((options : Sending) → SpellsOptions (map (λ word. word.now) words.now) options → ⊥) }
{
    let (unordered, words) = flag_of(b"unordered", words);
    let (milliseconds, max_retransmissions, lifecycle_id) = life_of(words)?;
    let lifetime = match milliseconds {
        Some(milliseconds) => Some(Duration::from_millis(milliseconds)),
        None => None,
    };
    Some(SendOptions {
        unordered,
        lifetime,
        max_retransmissions,
        lifecycle_id,
    })
}

/// `[life MS] [rtx N] [id N]`
fn life_of(words: &[&[u8]]) -> Option<(Option<u64>, Option<u16>, Option<LifecycleId>)>
    ensures some { IfSome result (λ found. SpellsLife (map (λ word. word.now) words.now) found.0 found.1 found.2) }
    ensures none { IfNone result ((life limit id : Option ℕ) → SpellsLife (map (λ word. word.now) words.now) life limit id → ⊥) }
{
    let (life, words) = named_number_of(b"life", words)?;
    let (limit, id) = limit_of(words)?;
    Some((life, limit, id))
}

/// `[rtx N] [id N]`
fn limit_of(words: &[&[u8]]) -> Option<(Option<u16>, Option<LifecycleId>)>
    ensures some { IfSome result (λ found. SpellsLimit (map (λ word. word.now) words.now) found.0 found.1) }
    ensures none { IfNone result ((limit id : Option ℕ) → SpellsLimit (map (λ word. word.now) words.now) limit id → ⊥) }
{
    let (limit, words) = named_short_of(b"rtx", words)?;
    let id = id_of(words)?;
    Some((limit, id))
}

/// `[id N]`
fn id_of(words: &[&[u8]]) -> Option<Option<LifecycleId>>
    ensures some { IfSome result (λ id. SpellsId (map (λ word. word.now) words.now) id) }
    ensures none { IfNone result ((id : Option ℕ) → SpellsId (map (λ word. word.now) words.now) id → ⊥) }
{
    let (id, rest) = named_number_of(b"id", words)?;
    if !rest.is_empty() {
        return None;
    }
    lifecycle_of(id)
}

/// The same as `named_number_of`, for numbers of 16 bits.
fn named_short_of<'a, 'b>(
    name: &[u8],
    words: &'a [&'b [u8]],
) -> Option<(Option<u16>, &'a [&'b [u8]])>
    ensures some { IfSome result (λ found. IsNamed name.now (map (λ word. word.now) words.now) (map (λ word. word.now) found.1.now) found.0
        × ((k : ℕ) → found.0 ≡ Some k → k < 2 ^ 16)) }
    ensures none { IfNone result ((rest : List (List ℕ)) (n : Option ℕ) → IsNamed name.now (map (λ word. word.now) words.now) rest n
        → ((k : ℕ) → n ≡ Some k → k < 2 ^ 16) → ⊥) }
{
    let (number, rest) = named_number_of(name, words)?;
    match number {
        Some(number) => Some((Some(u16::try_from(number).ok()?), rest)),
        None => Some((None, rest)),
    }
}

/// A number above 0, or none.
fn lifecycle_of(number: Option<u64>) -> Option<Option<LifecycleId>>
    ensures some { IfSome result (λ id. (id ≡ number) × (number ≢ Some 0)) }
    ensures none { IfNone result (number ≡ Some 0) }
{
    match number {
        Some(number) => Some(Some(LifecycleId::new(number)?)),
        None => Some(None),
    }
}

/// Whether the words begin with this one, and what stands behind it.
fn flag_of<'a, 'b>(name: &[u8], words: &'a [&'b [u8]]) -> (bool, &'a [&'b [u8]])
    ensures { IsFlag name.now (map (λ word. word.now) words.now) (map (λ word. word.now) result.1.now) result.0 }
{
    match words {
        [first, rest @ ..] if is_word(first, name) => (true, rest),
        _ => (false, words),
    }
}

/// The number behind this word, where the words begin with it, and what stands behind. `None` where no number does.
fn named_number_of<'a, 'b>(
    name: &[u8],
    words: &'a [&'b [u8]],
) -> Option<(Option<u64>, &'a [&'b [u8]])>
    ensures some { IfSome result (λ found. IsNamed name.now (map (λ word. word.now) words.now) (map (λ word. word.now) found.1.now) found.0) }
    ensures none { IfNone result ((rest : List (List ℕ)) (n : Option ℕ) → IsNamed name.now (map (λ word. word.now) words.now) rest n → ⊥) }
{
    let [first, others @ ..] = words else {
        return Some((None, words));
    };
    if !is_word(first, name) {
        return Some((None, words));
    }
    let [number, rest @ ..] = others else {
        return None;
    };
    Some((Some(number_of(number)?), rest))
}

// ---- single words

fn is_word(word: &[u8], name: &[u8]) -> bool
    ensures yes { result ≡ true → word.now ≡ name.now }
    ensures no { result ≡ false → word.now ≢ name.now }
{
    word == name
}

/// `a` or `b`
fn end_of(word: &[u8]) -> Option<End>
    ensures some { IfSome result (λ end. word.now ≡ end_name (end_tree end)) }
    ensures none { IfNone result ((x : tree) → word.now ≢ end_name x) }
{
    if is_word(word, b"a") {
        Some(End::A)
    } else if is_word(word, b"b") {
        Some(End::B)
    } else {
        None
    }
}

/// Decimal digits alone.
fn number_of(word: &[u8]) -> Option<u64>
    ensures some { IfSome result (λ n. IsNumber word.now n) }
    ensures none { IfNone result ((n : ℕ) → n < 2 ^ 64 → IsNumber word.now n → ⊥) }
{
    if !is_digits(word) {
        return None;
    }
    let Ok(text) = str::from_utf8(word) else {
        return None;
    };
    text.parse().ok()
}

fn is_digits(word: &[u8]) -> bool
    ensures { result ≡ list_all is_ascii_digit word.now }
{
    word.iter().all(|b| b.is_ascii_digit())
}

fn word_number_of(word: &[u8]) -> Option<u32>
    ensures some { IfSome result (λ n. IsNumber word.now n) }
    ensures none { IfNone result ((n : ℕ) → n < 2 ^ 32 → IsNumber word.now n → ⊥) }
{
    u32::try_from(number_of(word)?).ok()
}

fn half_number_of(word: &[u8]) -> Option<u16>
    ensures some { IfSome result (λ n. IsNumber word.now n) }
    ensures none { IfNone result ((n : ℕ) → n < 2 ^ 16 → IsNumber word.now n → ⊥) }
{
    u16::try_from(number_of(word)?).ok()
}

/// An even number of hex digits of either case, not 0.
fn bytes_of(alloc: Global, word: &[u8]) -> Result<Option<Vec<u8>>, AllocError>
    ensures some { IfOk result (λ found. IfSome found (λ bytes. IsHex word.now bytes.items)) }
    ensures none { IfOk result (λ found. IfNone found ((bytes : List ℕ) → IsHex word.now bytes → ⊥)) }
{
    if word.is_empty() {
        return Ok(None);
    }
    match hex::decode(alloc, word) {
        Ok(bytes) => Ok(Some(bytes)),
        Err(FromHexError::OutOfMemory) => Err(AllocError),
        Err(_) => Ok(None),
    }
}
