// The state of the drive between the steps of the service channel.
ghost use Rattle.std.specs.Prelude.{◌≡◌, ℕ, ◌+◌, ◌/◌, ◌%◌, ◌≤◌, ◌<◌, ◌==◌, ◌&&◌, [], ◌∷◌, ◌++◌, List, length, take, drop, slice_index, min, if◌then◌else◌, true, false, Bool, Option, Some, None, option_map, MatchResult};
ghost use Rattle.sercos_service_drive.specs.Clauses.{result_err, bytes_in, words_of, Block, find_block, CommandHistory, are_commands_of, CommandsStandFor, Processed, processed_step, Entry, opens, open_idn, good, words_at, missing, adds, run_of, place_in, selected, GoesWith, IsAnswered, SessionStandsFor, IsStarted, IsEffect, IsWord, IsReplied};

use crate::causes::check_place;
use crate::copying::{Buffer, CAPACITY, copy_element};
use crate::writing::tell;
use sercos_block::Store;
use sercos_command::{Commands, stored_law};
use sercos_idn::element::{DATA, IDENTIFIER};
use sercos_idn::{Code, Idn};
use sercos_step::{Answer, Step, word_at};
use std::marker::Model;

/// The run of steps that the next step may continue: steps with the same write bit and the same element.
#[derive(Clone, Copy, Debug, PartialEq, Eq)]
pub struct Selection {
    /// Whether its steps write.
    pub write: bool,
    /// The element of its steps.
    pub element: u8,
    /// The index of its next word: the number of its steps so far, which stops at 65535.
    pub place: u16,
}

// The state of the drive between the steps: the identifier number that is open, the run, and its bytes. For a read these are the copy of
// the element, for a write the words so far.
#[derive(Drop)]
pub(crate) struct Session {
    opened: Option<Idn>,
    selection: Option<Selection>,
    buffer: Buffer,
}

impl Model for Session {
    ghost use Rattle.sercos_service_drive.specs.Kept.{SessionView};

    ghost Value = { SessionView };

    ghost view = { λ s. record { opened = s.opened; selection = s.selection; buffer = s.buffer } };
}

// Returns whether a step opens an identifier number.
fn opens(step: Step) -> bool
    ensures { result ≡ opens step }
{
    step.write && step.element == IDENTIFIER
}

// Returns the number of steps of the run that a step with this write bit and element continues; 0 if it begins a run.
fn place_in(selection: Option<Selection>, write: bool, element: u8) -> u16
    ensures { result ≡ place_in selection write element }
{
    match selection {
        None => 0,
        Some(s) => {
            if s.write == write && s.element == element {
                s.place
            } else {
                0
            }
        }
    }
}

// Returns the run after a step at index `place`; `None` after its last word.
fn selected(step: Step, place: u16) -> Option<Selection>
    ensures { result ≡ selected step.last step place }
{
    if step.last {
        None
    } else {
        Some(Selection {
            write: step.write,
            element: step.element,
            place: place.saturating_add(1),
        })
    }
}

// At the first word of a run replaces the buffer by the words of the element, 1 to 7. At any other word it leaves the buffer unchanged. The
// error is that of `copy_element`; then the buffer is unspecified.
fn select(
    buffer: &mut Buffer,
    place: u16,
    idn: Idn,
    element: u8,
    cycle: u32,
    store: &Store,
    commands: &Commands,
) -> Result<(), Code>
    requires { (1 ≤ element) × (element ≤ 7) }
    ensures fault { MatchResult result
        (λ _. (if place == 0 then missing idn.raw element store.now else None) ≡ None)
        (λ code. (if place == 0 then missing idn.raw element store.now else None) ≡ Some code.raw) }
    ensures copy { (c : CommandHistory) → CommandsStandFor commands.now c → place ≡ 0 → missing idn.raw element store.now ≡ None →
        words_of buffer.new ≡ words_at idn.raw element cycle store.now c }
    ensures same { (place == 0) ≡ false → buffer.new ≡ buffer.old }
{
    if place != 0 {
        return Ok(());
    }
    copy_element(buffer, idn, element, cycle, store, commands)
}

// Empties the buffer at the first word of a run; otherwise leaves it unchanged.
fn start(buffer: &mut Buffer, place: u16)
    ensures { buffer.new ≡ (if place == 0 then [] else buffer.old) }
{
    if place == 0 {
        buffer.clear();
    }
}

// Returns the first word of a run whose word at index `place` is `word`. The buffer has the words before it.
fn first_word(buffer: &Buffer, place: u16, word: u16) -> u16
    ensures { result ≡ (if place == 0 then word else slice_index (words_of buffer.now) 0) }
{
    if place == 0 {
        word
    } else {
        word_at(buffer.as_slice(), 0)
    }
}

// Returns the bytes that words write: for a number all of them, for a list the `count` bytes after its two lengths, or as many as there
// are.
fn written(bytes: &[u8], list: bool, count: u16) -> &[u8]
    ensures { result.now ≡ (if list then take count (drop 4 bytes.now) else bytes.now) }
{
    if !list {
        return bytes;
    }
    let items = &bytes[bytes.len().min(4)..];
    &items[..items.len().min(usize::from(count))]
}

// Appends a word, the low byte first, if the buffer has at most 1,026 bytes; otherwise nothing changes.
fn push_word(buffer: &mut Buffer, word: u16)
    ensures { length buffer.old ≤ 1026 → buffer.new ≡ buffer.old ++ (word % 256) ∷ (word / 256) ∷ [] }
{
    if buffer.len() + 2 <= CAPACITY {
        buffer.push_word_within(word);
    }
}

// Processes a word of operation data in a phase, 2 to 4. The buffer has the words of the run before it, `place` of them, counted up to
// 65535; they were accepted for the same block, except for its operation data. The last word writes the operation data to the store, and
// informs the procedure commands. The error is the first against the word: 0x1001 without the block, otherwise an error of `check_place`
// or, at the last word, of `Store::put`. Then store and commands are unchanged, and the buffer is unspecified. Without an error the buffer
// has the word too. All commands that are set are procedure commands of the store, before and after.
fn write_word(
    buffer: &mut Buffer,
    place: u16,
    idn: Idn,
    cycle: u32,
    phase: u8,
    last: bool,
    word: u16,
    store: &mut Store,
    commands: &mut Commands,
) -> Result<(), Code>
    requires phase { (2 ≤ phase) × (phase ≤ 4) }
    requires set { are_commands_of store.old commands.old ≡ true }
    ensures none { find_block idn.raw store.old ≡ None → (option_map (λ code. code.raw) (result_err result) ≡ Some 0x1001) × (store.new ≡ store.old) × (commands.new ≡ commands.old) }
    ensures word { (b : Block) (words : List ℕ) → find_block idn.raw store.old ≡ Some b → buffer.old ≡ bytes_in words → place ≡ min (length words) 65535 → IsStarted b words →
        IsWord idn.raw cycle phase b last (words ++ word ∷ []) (option_map (λ code. code.raw) (result_err result)) buffer.new store.old store.new commands.old commands.new }
    ensures set { are_commands_of store.new commands.new ≡ true }
{
    let Some(block) = store.find(idn) else {
        return Err(Code::NO_IDN);
    };
    let first = first_word(buffer, place, word);
    check_place(&block, phase, last, u32::from(place) + 1, first)?;
    let attribute = block.attribute();
    push_word(buffer, word);
    if !last {
        return Ok(());
    }
    stored_law();
    let bytes = written(buffer.as_slice(), attribute.length.is_list(), first);
    store.put(idn, bytes, phase)?;
    tell(commands, idn, attribute.command, bytes, cycle, store);
    Ok(())
}

impl Session {
    // Returns the state in which no identifier number is open.
    pub(crate) fn new() -> Session
        ensures { SessionStandsFor result [] }
    {
        Session {
            opened: None,
            selection: None,
            buffer: Buffer::new(),
        }
    }

    // Closes the identifier number and ends the run. The state is that of no steps, and also that after a step of element 0, whose reply is
    // the word 0.
    pub(crate) fn close(&mut self)
        ensures reset { SessionStandsFor self.new [] }
        ensures answered { (t : Processed) (log : List Entry) → opens t.step ≡ false → (t.step.element == 0) ≡ true → IsAnswered self.new t log (good 0) }
    {
        self.opened = None;
        self.selection = None;
    }

    // Opens an identifier number, and returns the word of the reply, 0. It ends the run. The error is 0x1001 if the drive doesn't have it;
    // then none is open.
    fn open(&mut self, idn: Idn, store: &Store) -> Result<u16, Code>
        ensures { (t : Processed) (log : List Entry) → opens t.step ≡ true → t.step.word ≡ idn.raw → t.blocks ≡ store.now → IsReplied self.new t log result }
    {
        self.selection = None;
        self.opened = None;
        if !store.has(idn) {
            return Err(Code::NO_IDN);
        }
        self.opened = Some(idn);
        Ok(0)
    }

    // Returns the next word of an element, 1 to 7, of the open identifier number, as it was in the cycle of the run's first step; 0 after
    // the end of the element. `step` is a read of this element. The error is that of `copy_element`, at the first step. The caller ends the
    // run then.
    fn read(
        &mut self,
        idn: Idn,
        cycle: u32,
        step: Step,
        store: &Store,
        commands: &Commands,
    ) -> Result<u16, Code>
        requires element { (1 ≤ step.element) × (step.element ≤ 7) }
        requires read { step.write ≡ false }
        ensures { (phase : ℕ) (mhs : Bool) (log : List Entry) (c : CommandHistory) → SessionStandsFor self.old log → CommandsStandFor commands.now c →
            open_idn log ≡ Some idn.raw → IsReplied self.new (processed_step cycle phase mhs step store.now c) log result }
    {
        let place = place_in(self.selection, false, step.element);
        select(
            &mut self.buffer,
            place,
            idn,
            step.element,
            cycle,
            store,
            commands,
        )?;
        self.selection = selected(step, place);
        Ok(word_at(self.buffer.as_slice(), place))
    }

    // Writes the next word of an element, 2 to 7, of the open identifier number in a phase, 2 to 4, and returns the word of the reply, 0.
    // The error is 0x2004 to 0x6004 for an element other than the operation data, otherwise that of `write_word`. The caller ends the run
    // then. Except for their operation data, the blocks are those of the run's steps. All commands that are set are procedure commands of
    // the store, before and after.
    fn write(
        &mut self,
        idn: Idn,
        cycle: u32,
        phase: u8,
        step: Step,
        store: &mut Store,
        commands: &mut Commands,
    ) -> Result<u16, Code>
        requires element { (2 ≤ step.element) × (step.element ≤ 7) }
        requires write { step.write ≡ true }
        requires phase { (2 ≤ phase) × (phase ≤ 4) }
        requires set { are_commands_of store.old commands.old ≡ true }
        ensures answered { (mhs : Bool) (log : List Entry) (c : CommandHistory) → SessionStandsFor self.old log → open_idn log ≡ Some idn.raw →
            GoesWith store.old (run_of log) → IsReplied self.new (processed_step cycle phase mhs step store.old c) log result }
        ensures effect { (mhs : Bool) (log : List Entry) (c : CommandHistory) → SessionStandsFor self.old log → open_idn log ≡ Some idn.raw →
            GoesWith store.old (run_of log) → IsEffect (adds (processed_step cycle phase mhs step store.old c) log) cycle store.old store.new commands.old commands.new }
        ensures set { are_commands_of store.new commands.new ≡ true }
    {
        if step.element != DATA {
            return Err(Code::protected(step.element));
        }
        let place = place_in(self.selection, true, DATA);
        start(&mut self.buffer, place);
        write_word(
            &mut self.buffer,
            place,
            idn,
            cycle,
            phase,
            step.last,
            step.word,
            store,
            commands,
        )?;
        self.selection = selected(step, place);
        Ok(0)
    }

    // Processes a step of an element below 8 in a phase from 2 to 4, and returns the word of the reply. The error is that of `open` for an
    // opening, none for element 0, 0x0001 if no identifier number is open, otherwise that of `read` or `write`. After an error the store
    // and the procedure commands are unchanged, and the caller must set `selection` to `None`. Only the last word of operation data changes
    // the store. Except for their operation data, the blocks are those of the run's steps. All commands that are set are procedure commands
    // of the store, before and after.
    fn reply(
        &mut self,
        cycle: u32,
        phase: u8,
        step: Step,
        store: &mut Store,
        commands: &mut Commands,
    ) -> Result<u16, Code>
        requires element { step.element < 8 }
        requires phase { (2 ≤ phase) × (phase ≤ 4) }
        requires set { are_commands_of store.old commands.old ≡ true }
        ensures answered { (mhs : Bool) (log : List Entry) (c : CommandHistory) → SessionStandsFor self.old log → CommandsStandFor commands.old c →
            GoesWith store.old (run_of log) → IsReplied self.new (processed_step cycle phase mhs step store.old c) log result }
        ensures effect { (mhs : Bool) (log : List Entry) (c : CommandHistory) → SessionStandsFor self.old log → GoesWith store.old (run_of log) →
            IsEffect (adds (processed_step cycle phase mhs step store.old c) log) cycle store.old store.new commands.old commands.new }
        ensures set { are_commands_of store.new commands.new ≡ true }
    {
        if opens(step) {
            return self.open(Idn { raw: step.word }, store);
        }
        if step.element == 0 {
            self.close();
            return Ok(0);
        }
        let Some(idn) = self.opened else {
            return Err(Code::NOT_OPEN);
        };
        if step.write {
            self.write(idn, cycle, phase, step, store, commands)
        } else {
            self.read(idn, cycle, step, store, commands)
        }
    }

    // Processes a step of an element below 8 that was accepted in a cycle, in a phase from 2 to 4, and returns the reply to it. An error
    // ends the run; then the word of the reply is the error code, and the store and the procedure commands are unchanged. Only the last
    // word of operation data changes them, as `write_word` does. Except for their operation data, the blocks must be those of the run's
    // steps. All commands that are set must be procedure commands of the store, and are so afterwards.
    pub(crate) fn answer(
        &mut self,
        cycle: u32,
        phase: u8,
        step: Step,
        store: &mut Store,
        commands: &mut Commands,
    ) -> Answer
        requires element { step.element < 8 }
        requires phase { (2 ≤ phase) × (phase ≤ 4) }
        requires set { are_commands_of store.old commands.old ≡ true }
        ensures answered { (mhs : Bool) (log : List Entry) (c : CommandHistory) → SessionStandsFor self.old log → CommandsStandFor commands.old c →
            GoesWith store.old (run_of log) → IsAnswered self.new (processed_step cycle phase mhs step store.old c) log result }
        ensures effect { (mhs : Bool) (log : List Entry) (c : CommandHistory) → SessionStandsFor self.old log → GoesWith store.old (run_of log) →
            IsEffect (adds (processed_step cycle phase mhs step store.old c) log) cycle store.old store.new commands.old commands.new }
        ensures set { are_commands_of store.new commands.new ≡ true }
    {
        match self.reply(cycle, phase, step, store, commands) {
            Ok(word) => Answer { error: false, word },
            Err(code) => {
                self.selection = None;
                Answer {
                    error: true,
                    word: code.raw,
                }
            }
        }
    }
}
