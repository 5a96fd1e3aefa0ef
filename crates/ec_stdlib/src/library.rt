//! What a call of a known function does.

ghost use Rattle.std.specs.Prelude.{◌≡◌, ◌+◌, ◌++◌, ◌∷◌, map, pos, replicate, [], Some, Ok, OnErr};
ghost use Rattle.ec_meaning_defs.specs.functions.Functions as of;
ghost use Rattle.ec_meaning_defs.specs.functions.Functions.{effect_of};
ghost use Rattle.ec_meaning_defs.specs.functions.Strings.{text_appended};
ghost use Rattle.ec_memory_defs.specs.Memory.{Memory, and_then, moved, put, text_at};
ghost use Rattle.ec_values.specs.Words.{word_view};
ghost use Rattle.ec_stdlib.specs.Does.{Does};
ghost use Rattle.ec_stdlib.specs.Messages.{message_told};
ghost use Rattle.ec_printf.specs.formats.Known.{known_view, channel_view, part_view};

use crate::arguments::{
    byte_of, nothing, one_number, one_pointer, pointer_byte_and_count, pointers_and_count,
    two_pointers,
};
use crate::compare::{compare, compare_texts};
use crate::format::print;
use crate::refusal::{Answer, Refusal};
use ec_base::{Bytes, Trap};
use ec_bytes::Ptr;
use ec_memory::Store;
use ec_memory_defs::Kind;
use ec_printf::formats::{Channel, Known, Part};
use ec_values::{Word, load};

/// Calls a known function with these arguments. What was in `text` is let go, and the bytes that are to be put stand there:
/// all arguments and texts are read before the first one. After a refusal the memory is as it was.
pub fn call(
    known: &Known,
    store: &mut Store,
    arguments: &[Word],
    text: &mut Bytes,
) -> Result<Answer, Refusal>
    ensures does { Does result store.new text.new
        (effect_of (known_view known.now) store.old (map word_view arguments.now)) }
    ensures unchanged { OnErr result (store.new ≡ store.old) }
{
    text.clear();
    match known {
        Known::Print(channel, parts) => printed(*channel, parts.as_slice(), store, arguments, text),
        Known::Puts => puts(store, arguments, text),
        Known::Putchar => putchar(arguments, text),
        Known::Strlen => strlen(store, arguments),
        Known::Strcmp => strcmp(store, arguments),
        Known::Strncmp => strncmp(store, arguments),
        Known::Memcmp => memcmp(store, arguments),
        Known::Strcpy => strcpy(store, arguments, text),
        Known::Strncpy => strncpy(store, arguments, text),
        Known::Strcat => strcat(store, arguments, text),
        Known::Memcpy => memcpy(store, arguments),
        Known::Memset => memset(store, arguments),
        Known::Exit => exit(arguments),
        Known::Sqlprint => sqlprint(store, arguments, text),
    }
}

/// An answer that puts nothing.
fn silent(value: Word) -> Answer
    ensures value { result.value ≡ Some value }
    ensures channel { result.channel ≡ Channel.StandardOutput }
{
    Answer {
        value: Some(value),
        channel: Channel::StandardOutput,
    }
}

/// `printf` and `fprintf`
fn printed(
    channel: Channel,
    parts: &[Part],
    store: &Store,
    arguments: &[Word],
    text: &mut Bytes,
) -> Result<Answer, Refusal>
    requires { text.old ≡ [] }
    ensures { Does result store.now text.new
        (effect_of (of.print (channel_view channel) (map part_view parts.now)) store.now
        (map word_view arguments.now)) }
{
    match print(store, parts, arguments, text) {
        Ok(()) => Ok(Answer {
            value: Some(count(text)),
            channel,
        }),
        Err(Refusal::Trap(trap)) => Err(Refusal::Trap(trap)),
        Err(Refusal::Exit(status)) => Err(Refusal::Exit(status)),
        Err(Refusal::Misfit) => Err(Refusal::Misfit),
        Err(Refusal::OutOfMemory) => Err(Refusal::OutOfMemory),
    }
}

/// The number of bytes, as far as an `int` can say it.
fn count(text: &Bytes) -> Word
    ensures { word_view result ≡ of.count_of text.now }
{
    Word::Signed(text.len().min(2147483647) as i64)
}

/// `puts`
fn puts(store: &Store, arguments: &[Word], text: &mut Bytes) -> Result<Answer, Refusal>
    requires { text.old ≡ [] }
    ensures { Does result store.now text.new
        (effect_of of.puts store.now (map word_view arguments.now)) }
{
    match one_pointer(arguments) {
        Some(ptr) => match store.text(ptr) {
            Ok(bytes) => {
                text.extend_from_slice(bytes)?;
                text.push(b'\n')?;
                Ok(silent(Word::Signed(1)))
            }
            Err(trap) => Err(Refusal::Trap(trap)),
        },
        None => Err(Refusal::Misfit),
    }
}

/// `putchar`
fn putchar(arguments: &[Word], text: &mut Bytes) -> Result<Answer, Refusal>
    requires { text.old ≡ [] }
    ensures { (m : Memory) → Does result m text.new
        (effect_of of.putchar m (map word_view arguments.now)) }
{
    match one_number(arguments) {
        Some(number) => {
            let byte = byte_of(number);
            text.push(byte)?;
            Ok(silent(Word::Signed(byte as i64)))
        }
        None => Err(Refusal::Misfit),
    }
}

/// `strlen`
fn strlen(store: &Store, arguments: &[Word]) -> Result<Answer, Refusal>
    ensures { Does result store.now []
        (effect_of of.strlen store.now (map word_view arguments.now)) }
{
    match one_pointer(arguments) {
        Some(ptr) => match store.text(ptr) {
            Ok(bytes) => Ok(silent(Word::of_number(bytes.len() as i128))),
            Err(trap) => Err(Refusal::Trap(trap)),
        },
        None => Err(Refusal::Misfit),
    }
}

/// `strcmp`
fn strcmp(store: &Store, arguments: &[Word]) -> Result<Answer, Refusal>
    ensures { Does result store.now []
        (effect_of of.strcmp store.now (map word_view arguments.now)) }
{
    match two_pointers(arguments) {
        Some(texts) => match compare_texts(store, texts.first, texts.second) {
            Ok(order) => Ok(silent(Word::Signed(order))),
            Err(trap) => Err(Refusal::Trap(trap)),
        },
        None => Err(Refusal::Misfit),
    }
}

/// `strncmp`
fn strncmp(store: &Store, arguments: &[Word]) -> Result<Answer, Refusal>
    ensures { Does result store.now []
        (effect_of of.strncmp store.now (map word_view arguments.now)) }
{
    match pointers_and_count(arguments) {
        Some(of) => match compare(store, true, of.count, of.first, of.second) {
            Ok(order) => Ok(silent(Word::Signed(order))),
            Err(trap) => Err(Refusal::Trap(trap)),
        },
        None => Err(Refusal::Misfit),
    }
}

/// `memcmp`
fn memcmp(store: &Store, arguments: &[Word]) -> Result<Answer, Refusal>
    ensures { Does result store.now []
        (effect_of of.memcmp store.now (map word_view arguments.now)) }
{
    match pointers_and_count(arguments) {
        Some(of) => match compare(store, false, of.count, of.first, of.second) {
            Ok(order) => Ok(silent(Word::Signed(order))),
            Err(trap) => Err(Refusal::Trap(trap)),
        },
        None => Err(Refusal::Misfit),
    }
}

/// `strcpy`
fn strcpy(store: &mut Store, arguments: &[Word], buffer: &mut Bytes) -> Result<Answer, Refusal>
    requires { buffer.old ≡ [] }
    ensures does { Does result store.new buffer.new
        (effect_of of.strcpy store.old (map word_view arguments.now)) }
    ensures unchanged { OnErr result (store.new ≡ store.old) }
{
    match two_pointers(arguments) {
        Some(texts) => {
            match store.text(texts.second) {
                Ok(bytes) => buffer.extend_from_slice(bytes)?,
                Err(trap) => return Err(Refusal::Trap(trap)),
            }
            written(store, texts.first, texts.first, buffer, 1)
        }
        None => Err(Refusal::Misfit),
    }
}

/// `strncpy`
fn strncpy(store: &mut Store, arguments: &[Word], buffer: &mut Bytes) -> Result<Answer, Refusal>
    requires { buffer.old ≡ [] }
    ensures does { Does result store.new buffer.new
        (effect_of of.strncpy store.old (map word_view arguments.now)) }
    ensures unchanged { OnErr result (store.new ≡ store.old) }
{
    match pointers_and_count(arguments) {
        Some(of) => {
            match store.text_up_to(of.second, of.count) {
                Ok(bytes) => buffer.extend_from_slice(bytes)?,
                Err(trap) => return Err(Refusal::Trap(trap)),
            }
            let zeros = of.count.saturating_sub(buffer.len() as u64);
            written(store, of.first, of.first, buffer, zeros)
        }
        None => Err(Refusal::Misfit),
    }
}

/// `strcat`
fn strcat(store: &mut Store, arguments: &[Word], buffer: &mut Bytes) -> Result<Answer, Refusal>
    requires { buffer.old ≡ [] }
    ensures does { Does result store.new buffer.new
        (effect_of of.strcat store.old (map word_view arguments.now)) }
    ensures unchanged { OnErr result (store.new ≡ store.old) }
{
    match two_pointers(arguments) {
        Some(texts) => append(store, texts.first, texts.second, buffer),
        None => Err(Refusal::Misfit),
    }
}

/// Puts a text behind another. The one at the destination is read first.
fn append(store: &mut Store, to: Ptr, from: Ptr, buffer: &mut Bytes) -> Result<Answer, Refusal>
    requires { buffer.old ≡ [] }
    ensures does { Does result store.new buffer.new
        (of.writing to.0 (text_appended store.old to.0 from.0)) }
    ensures unchanged { OnErr result (store.new ≡ store.old) }
{
    match store.text(to) {
        Ok(front) => {
            let count = front.len();
            append_behind(store, to, count, from, buffer)
        }
        Err(trap) => Err(Refusal::Trap(trap)),
    }
}

/// Puts a text so many bytes behind a pointer, and answers the pointer.
fn append_behind(
    store: &mut Store,
    to: Ptr,
    count: usize,
    from: Ptr,
    buffer: &mut Bytes,
) -> Result<Answer, Refusal>
    requires empty { buffer.old ≡ [] }
    requires inside { moved store.old to.0 (pos count) 1 ≡ Ok (to.0 + count) }
    ensures does { Does result store.new buffer.new (of.writing to.0
        (and_then (text_at store.old from.0)
        (λ bytes. put store.old (to.0 + count) (bytes ++ 0 ∷ [])))) }
    ensures unchanged { OnErr result (store.new ≡ store.old) }
{
    match store.text(from) {
        Ok(bytes) => {
            buffer.extend_from_slice(bytes)?;
            match store.move_ptr_wide(to, count as i128, 1) {
                Ok(end) => written(store, to, end, buffer, 1),
                Err(trap) => Err(Refusal::Trap(trap)),
            }
        }
        Err(trap) => Err(Refusal::Trap(trap)),
    }
}

/// Puts the bytes of the buffer and zero bytes at a pointer, empties the buffer, and answers the first argument.
fn written(
    store: &mut Store,
    first: Ptr,
    at: Ptr,
    buffer: &mut Bytes,
    zeros: u64,
) -> Result<Answer, Refusal>
    ensures does { Does result store.new buffer.new
        (of.writing first.0 (put store.old at.0 (buffer.old ++ replicate zeros 0))) }
    ensures unchanged { OnErr result (store.new ≡ store.old) }
{
    let outcome = store.put_padded(at, buffer.as_slice(), zeros);
    buffer.clear();
    match outcome {
        Ok(()) => Ok(silent(Word::Address(first))),
        Err(trap) => Err(Refusal::Trap(trap)),
    }
}

/// `memcpy`
fn memcpy(store: &mut Store, arguments: &[Word]) -> Result<Answer, Refusal>
    ensures does { Does result store.new []
        (effect_of of.memcpy store.old (map word_view arguments.now)) }
    ensures unchanged { OnErr result (store.new ≡ store.old) }
{
    match pointers_and_count(arguments) {
        Some(of) => match store.copy(of.first, of.second, of.count) {
            Ok(()) => Ok(silent(Word::Address(of.first))),
            Err(trap) => Err(Refusal::Trap(trap)),
        },
        None => Err(Refusal::Misfit),
    }
}

/// `memset`
fn memset(store: &mut Store, arguments: &[Word]) -> Result<Answer, Refusal>
    ensures does { Does result store.new []
        (effect_of of.memset store.old (map word_view arguments.now)) }
    ensures unchanged { OnErr result (store.new ≡ store.old) }
{
    match pointer_byte_and_count(arguments) {
        Some(of) => match store.fill(of.ptr, of.count, of.byte) {
            Ok(()) => Ok(silent(Word::Address(of.ptr))),
            Err(trap) => Err(Refusal::Trap(trap)),
        },
        None => Err(Refusal::Misfit),
    }
}

/// `exit`
fn exit(arguments: &[Word]) -> Result<Answer, Refusal>
    ensures { (m : Memory) → Does result m []
        (effect_of of.exit m (map word_view arguments.now)) }
{
    match one_number(arguments) {
        Some(number) => Err(Refusal::Exit(number.rem_euclid(1 << 8) as u8)),
        None => Err(Refusal::Misfit),
    }
}

/// `sqlprint`
fn sqlprint(store: &Store, arguments: &[Word], text: &mut Bytes) -> Result<Answer, Refusal>
    requires { text.old ≡ [] }
    ensures { Does result store.now text.new
        (effect_of of.sqlprint store.now (map word_view arguments.now)) }
{
    if nothing(arguments) {
        error_printed(store, text)
    } else {
        Err(Refusal::Misfit)
    }
}

/// The message of the last error, on standard error.
fn error_printed(store: &Store, text: &mut Bytes) -> Result<Answer, Refusal>
    requires { text.old ≡ [] }
    ensures { Does result store.now text.new (of.error_printed store.now) }
{
    match load(store, Ptr((1 << 32) + 24), Kind::Int) {
        Ok(value) => message_printed(store, message_size(value), text),
        Err(trap) => Err(Refusal::Trap(trap)),
    }
}

/// A message of this length.
fn message_printed(store: &Store, size: u64, text: &mut Bytes) -> Result<Answer, Refusal>
    requires { text.old ≡ [] }
    ensures { Does result store.now text.new (message_told store.now size) }
{
    match store.span(Ptr((1 << 32) + 28), size) {
        Ok(bytes) => {
            text.extend_from_slice(b"SQL error: ")?;
            text.extend_from_slice(bytes)?;
            text.push(b'\n')?;
            Ok(Answer {
                value: None,
                channel: Channel::StandardError,
            })
        }
        Err(trap) => Err(Refusal::Trap(trap)),
    }
}

/// How long the message is: a length below 0 counts as 0, and one above 149 as 149.
fn message_size(value: Word) -> u64
    ensures { result ≡ of.message_size (word_view value) }
{
    value.number().clamp(0, 149) as u64
}
