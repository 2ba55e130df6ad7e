//! Which command a line spells. The shell calls it for each line that is neither empty nor a remark.
ghost use Rattle.std.specs.Prelude.{◌≡◌, ◌∷◌, ◌++◌, IfSome, IfNone, IsTrue, codes, false};
ghost use Rattle.std.specs.List.{AllByRecursion};
ghost use Rattle.rb_model.specs.Lines.{Spells, SpellsNone, IsField, Word, fields_text, word_text};
ghost use Rattle.rb_model.specs.Names.{name_text};
ghost use Rattle.rb_script.specs.Commands.{asked_by, command_of};
ghost use Rattle.rb_script.specs.Words.{NoFields, is_sweep, is_word, key_fields, key_kinds, later_fields};
ghost use Rattle.rb_script.specs.Words.{later_kinds, name_fields, name_kinds, names_key, row_fields, row_kinds};

use crate::command::{Command, Request};
use crate::words::{
    count_of, id_and_rest, id_of, is_later, is_visible, key_and_rest, mode_of, name_and_rest, split,
};
use rb_base::parse_decimal;
use rb_model::{Name, Op};

// The session, the table, the key and the value that these fields are
fn write_of(fields: &[u8]) -> Option<(u16, u16, u64, &[u8])>
    ensures found { IfSome result (λ p. 32 ∷ fields.now ≡ fields_text (row_fields p.0 p.1 p.2 p.3.now)) }
    ensures valid { IfSome result (λ p. AllByRecursion IsField (row_fields p.0 p.1 p.2 p.3.now)) }
    ensures none { IfNone result (NoFields row_kinds (32 ∷ fields.now)) }
{
    let (s, fields) = id_and_rest(fields)?;
    let (t, fields) = id_and_rest(fields)?;
    let (k, value) = key_and_rest(fields)?;
    if !is_visible(value) {
        return None;
    }
    Some((s, t, k, value))
}

// The session, the table and the key that these fields are
fn key_of(fields: &[u8]) -> Option<(u16, u16, u64)>
    ensures found { IfSome result (λ p. 32 ∷ fields.now ≡ fields_text (key_fields p.0 p.1 p.2)) }
    ensures valid { IfSome result (λ p. AllByRecursion IsField (key_fields p.0 p.1 p.2)) }
    ensures none { IfNone result (NoFields key_kinds (32 ∷ fields.now)) }
{
    let (s, fields) = id_and_rest(fields)?;
    let (t, fields) = id_and_rest(fields)?;
    let k = parse_decimal(fields)?;
    Some((s, t, k))
}

// The session and the name that these fields are
fn named_of(fields: &[u8]) -> Option<(u16, Name)>
    ensures found { IfSome result (λ p. 32 ∷ fields.now ≡ fields_text (name_fields p.0 (name_text p.1))) }
    ensures valid { IfSome result (λ p. AllByRecursion IsField (name_fields p.0 (name_text p.1))) }
    ensures none { IfNone result (NoFields name_kinds (32 ∷ fields.now)) }
{
    let (s, fields) = id_and_rest(fields)?;
    let name = Name::new(fields)?;
    Some((s, name))
}

// The session that these fields name in front of the word `later`
fn later_of(fields: &[u8]) -> Option<u16>
    ensures found { IfSome result (λ s. 32 ∷ fields.now ≡ fields_text (later_fields s)) }
    ensures valid { IfSome result (λ s. AllByRecursion IsField (later_fields s)) }
    ensures none { IfNone result (NoFields later_kinds (32 ∷ fields.now)) }
{
    let (s, word) = id_and_rest(fields)?;
    if !is_later(word) {
        return None;
    }
    Some(s)
}

// What the line asks for that is `insert`, a space and these fields
fn insert_of(fields: &[u8]) -> Option<(u16, Request<'_>)>
    ensures found { IfSome result (λ p. Spells (codes "insert" ++ 32 ∷ fields.now) (asked_by p.0 p.1)) }
    ensures none { IfNone result (SpellsNone (codes "insert" ++ 32 ∷ fields.now)) }
{
    let (s, t, k, value) = write_of(fields)?;
    let op = Op::Insert(value);
    Some((s, Request::Write { t, k, op }))
}

// What the line asks for that is `update`, a space and these fields
fn update_of(fields: &[u8]) -> Option<(u16, Request<'_>)>
    ensures found { IfSome result (λ p. Spells (codes "update" ++ 32 ∷ fields.now) (asked_by p.0 p.1)) }
    ensures none { IfNone result (SpellsNone (codes "update" ++ 32 ∷ fields.now)) }
{
    let (s, t, k, value) = write_of(fields)?;
    let op = Op::Update(value);
    Some((s, Request::Write { t, k, op }))
}

// What the line asks for that is `put`, a space and these fields
fn put_of(fields: &[u8]) -> Option<(u16, Request<'_>)>
    ensures found { IfSome result (λ p. Spells (codes "put" ++ 32 ∷ fields.now) (asked_by p.0 p.1)) }
    ensures none { IfNone result (SpellsNone (codes "put" ++ 32 ∷ fields.now)) }
{
    let (s, t, k, value) = write_of(fields)?;
    let op = Op::Put(value);
    Some((s, Request::Write { t, k, op }))
}

// What the line asks for that is `delete`, a space and these fields
fn delete_of(fields: &[u8]) -> Option<(u16, Request<'_>)>
    ensures found { IfSome result (λ p. Spells (codes "delete" ++ 32 ∷ fields.now) (asked_by p.0 p.1)) }
    ensures none { IfNone result (SpellsNone (codes "delete" ++ 32 ∷ fields.now)) }
{
    let (s, t, k) = key_of(fields)?;
    let op = Op::Delete;
    Some((s, Request::Write { t, k, op }))
}

// What the line asks for that is `lock`, a space and these fields
fn lock_of(fields: &[u8]) -> Option<(u16, Request<'_>)>
    ensures found { IfSome result (λ p. Spells (codes "lock" ++ 32 ∷ fields.now) (asked_by p.0 p.1)) }
    ensures none { IfNone result (SpellsNone (codes "lock" ++ 32 ∷ fields.now)) }
{
    let (s, t, k) = key_of(fields)?;
    Some((s, Request::Lock { t, k }))
}

// What the line asks for that is `get`, a space and these fields
fn get_of(fields: &[u8]) -> Option<(u16, Request<'_>)>
    ensures found { IfSome result (λ p. Spells (codes "get" ++ 32 ∷ fields.now) (asked_by p.0 p.1)) }
    ensures none { IfNone result (SpellsNone (codes "get" ++ 32 ∷ fields.now)) }
{
    let (s, t, k) = key_of(fields)?;
    Some((s, Request::Get { t, k }))
}

// What the line asks for that is `commit`, a space and these fields
fn commit_of(fields: &[u8]) -> Option<(u16, Request<'_>)>
    ensures found { IfSome result (λ p. Spells (codes "commit" ++ 32 ∷ fields.now) (asked_by p.0 p.1)) }
    ensures none { IfNone result (SpellsNone (codes "commit" ++ 32 ∷ fields.now)) }
{
    if let Some(s) = id_of(fields) {
        return Some((s, Request::Commit));
    }
    let s = later_of(fields)?;
    Some((s, Request::CommitLater))
}

// What the line asks for that is `rollback`, a space and these fields
fn rollback_of(fields: &[u8]) -> Option<(u16, Request<'_>)>
    ensures found { IfSome result (λ p. Spells (codes "rollback" ++ 32 ∷ fields.now) (asked_by p.0 p.1)) }
    ensures none { IfNone result (SpellsNone (codes "rollback" ++ 32 ∷ fields.now)) }
{
    if let Some(s) = id_of(fields) {
        return Some((s, Request::Rollback));
    }
    let (s, name) = named_of(fields)?;
    Some((s, Request::RollbackTo { name }))
}

// What the line asks for that is `set`, a space and these fields
fn set_of(fields: &[u8]) -> Option<(u16, Request<'_>)>
    ensures found { IfSome result (λ p. Spells (codes "set" ++ 32 ∷ fields.now) (asked_by p.0 p.1)) }
    ensures none { IfNone result (SpellsNone (codes "set" ++ 32 ∷ fields.now)) }
{
    let (s, word) = id_and_rest(fields)?;
    let mode = mode_of(word)?;
    Some((s, Request::Set { mode }))
}

// What the line asks for that is `savepoint`, a space and these fields
fn savepoint_of(fields: &[u8]) -> Option<(u16, Request<'_>)>
    ensures found { IfSome result (λ p. Spells (codes "savepoint" ++ 32 ∷ fields.now) (asked_by p.0 p.1)) }
    ensures none { IfNone result (SpellsNone (codes "savepoint" ++ 32 ∷ fields.now)) }
{
    let (s, name) = named_of(fields)?;
    Some((s, Request::Savepoint { name }))
}

// What the line asks for that is `open`, a space and these fields
fn open_of(fields: &[u8]) -> Option<(u16, Request<'_>)>
    ensures found { IfSome result (λ p. Spells (codes "open" ++ 32 ∷ fields.now) (asked_by p.0 p.1)) }
    ensures none { IfNone result (SpellsNone (codes "open" ++ 32 ∷ fields.now)) }
{
    let (s, fields) = id_and_rest(fields)?;
    let (name, fields) = name_and_rest(fields)?;
    let (t, fields) = id_and_rest(fields)?;
    let (lo, fields) = key_and_rest(fields)?;
    let hi = parse_decimal(fields)?;
    Some((s, Request::OpenCursor { name, t, lo, hi }))
}

// What the line asks for that is `fetch`, a space and these fields
fn fetch_of(fields: &[u8]) -> Option<(u16, Request<'_>)>
    ensures found { IfSome result (λ p. Spells (codes "fetch" ++ 32 ∷ fields.now) (asked_by p.0 p.1)) }
    ensures none { IfNone result (SpellsNone (codes "fetch" ++ 32 ∷ fields.now)) }
{
    let (s, fields) = id_and_rest(fields)?;
    let (name, fields) = name_and_rest(fields)?;
    let n = count_of(fields)?;
    Some((s, Request::Fetch { name, n }))
}

// What the line asks for that is `close`, a space and these fields
fn close_of(fields: &[u8]) -> Option<(u16, Request<'_>)>
    ensures found { IfSome result (λ p. Spells (codes "close" ++ 32 ∷ fields.now) (asked_by p.0 p.1)) }
    ensures none { IfNone result (SpellsNone (codes "close" ++ 32 ∷ fields.now)) }
{
    let (s, name) = named_of(fields)?;
    Some((s, Request::CloseCursor { name }))
}

// What the line asks for that is `cancel`, a space and these fields
fn cancel_of(fields: &[u8]) -> Option<(u16, Request<'_>)>
    ensures found { IfSome result (λ p. Spells (codes "cancel" ++ 32 ∷ fields.now) (asked_by p.0 p.1)) }
    ensures none { IfNone result (SpellsNone (codes "cancel" ++ 32 ∷ fields.now)) }
{
    let s = id_of(fields)?;
    Some((s, Request::Cancel))
}

// The command of a line that is one word
fn command_alone(word: &[u8]) -> Option<Command<'_>>
    requires { IsTrue (is_word word.now) }
    ensures found { IfSome result (λ command. Spells word.now (command_of command)) }
    ensures none { IfNone result (SpellsNone word.now) }
{
    if word == b"marks".as_slice() {
        return Some(Command::Marks);
    }
    if word == b"sessions".as_slice() {
        return Some(Command::Sessions);
    }
    if word == b"flush".as_slice() {
        return Some(Command::Flush);
    }
    if word == b"checkpoint".as_slice() {
        return Some(Command::Checkpoint);
    }
    None
}

// What the line asks for that is this word, a space and these fields, where the word names a session and
// is none of a key's
fn request_without_key<'a>(word: &[u8], fields: &'a [u8]) -> Option<(u16, Request<'a>)>
    requires word { IsTrue (is_word word.now) }
    requires session { (w : Word) → word.now ≡ word_text w → is_sweep w ≡ false }
    requires other { (w : Word) → word.now ≡ word_text w → names_key w ≡ false }
    ensures found { IfSome result (λ p. Spells (word.now ++ 32 ∷ fields.now) (asked_by p.0 p.1)) }
    ensures none { IfNone result (SpellsNone (word.now ++ 32 ∷ fields.now)) }
{
    if word == b"commit".as_slice() {
        return commit_of(fields);
    }
    if word == b"rollback".as_slice() {
        return rollback_of(fields);
    }
    if word == b"set".as_slice() {
        return set_of(fields);
    }
    if word == b"savepoint".as_slice() {
        return savepoint_of(fields);
    }
    if word == b"open".as_slice() {
        return open_of(fields);
    }
    if word == b"fetch".as_slice() {
        return fetch_of(fields);
    }
    if word == b"close".as_slice() {
        return close_of(fields);
    }
    if word == b"cancel".as_slice() {
        return cancel_of(fields);
    }
    None
}

// The command of the line that is `sweep`, a space and these fields
fn sweep_of(fields: &[u8]) -> Option<Command<'_>>
    ensures found { IfSome result (λ command. Spells (codes "sweep" ++ 32 ∷ fields.now) (command_of command)) }
    ensures none { IfNone result (SpellsNone (codes "sweep" ++ 32 ∷ fields.now)) }
{
    let changes = count_of(fields)?;
    Some(Command::Sweep { changes })
}

// What the line asks for that is this word, a space and these fields, where the word names a session
fn request_of<'a>(word: &[u8], fields: &'a [u8]) -> Option<(u16, Request<'a>)>
    requires word { IsTrue (is_word word.now) }
    requires session { (w : Word) → word.now ≡ word_text w → is_sweep w ≡ false }
    ensures found { IfSome result (λ p. Spells (word.now ++ 32 ∷ fields.now) (asked_by p.0 p.1)) }
    ensures none { IfNone result (SpellsNone (word.now ++ 32 ∷ fields.now)) }
{
    if word == b"insert".as_slice() {
        return insert_of(fields);
    }
    if word == b"update".as_slice() {
        return update_of(fields);
    }
    if word == b"put".as_slice() {
        return put_of(fields);
    }
    if word == b"delete".as_slice() {
        return delete_of(fields);
    }
    if word == b"lock".as_slice() {
        return lock_of(fields);
    }
    if word == b"get".as_slice() {
        return get_of(fields);
    }
    request_without_key(word, fields)
}

/// The command that the line spells, without the bytes that end it. None exactly where it spells none.
pub fn parse(line: &[u8]) -> Option<Command<'_>>
    ensures found { IfSome result (λ command. Spells line.now (command_of command)) }
    ensures none { IfNone result (SpellsNone line.now) }
{
    let Some((word, fields)) = split(line) else {
        return command_alone(line);
    };
    if word == b"sweep".as_slice() {
        return sweep_of(fields);
    }
    let (s, request) = request_of(word, fields)?;
    Some(Command::Session { s, request })
}
