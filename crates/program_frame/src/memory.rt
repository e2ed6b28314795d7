//! A shelf and a sink in memory, which expose all their contents. Calls of the shelf can be set to
//! fail.

ghost use Rattle.std.specs.Prelude.{◌≡◌, ◌<◌, ◌≤◌, ◌+◌, ℕ, List, [], ◌∷◌, ◌++◌, length, Some, None, IfOk, OnOk, OnErr, IsOk, IsErr, IsSome, true, false, vec_capacity, drop, is_err, min, ◌==◌};
ghost use Rattle.std.specs.List.{list_any};
ghost use Rattle.der_core.specs.Counts.{last_count, GoesOn, HasRisen, FailsOnce, RisesBy};

use crate::stored::{StoredFile, after, find_latest, octets_at};
use crate::{Failed, Shelf, Sink};
use std::alloc::{AllocError, Global};

// The calls that a shelf has served, and those that are set to fail.
#[derive(Drop)]
struct Calls {
    failing: Vec<u64>,
    count: u64,
    faults: u64,
    ghost fits: { faults ≤ last_count },
}

/// Files in memory.
#[derive(Drop)]
pub struct MemShelf {
    alloc: Global,
    files: Vec<StoredFile>,
    picked: Option<usize>,
    at: usize,
    given: u64,
    calls: Calls,
    ghost fits: { given ≤ last_count },
    ghost within: { (index : ℕ) → picked ≡ Some index → index < length files.items },
}

/// Octets in memory, up to a limit.
#[derive(Drop)]
pub struct MemSink {
    octets: Vec<u8>,
    room: usize,
    faults: u64,
    ghost fits: { faults ≤ last_count },
    ghost reserved: { length octets.items + room ≤ vec_capacity octets },
}

impl Calls {
    ghost use Rattle.program_frame.specs.Memory.{is_quiet_from_now};

    // Counts a call, which fails if it is set to.
    fn begin(&mut self) -> Result<(), Failed>
        ensures set { is_err result
            ≡ list_any (λ call. call == self.old.count) self.old.failing.items }
        ensures next { self.new.count ≡ min (self.old.count + 1) last_count }
        ensures same { self.new.failing ≡ self.old.failing }
        ensures counted { GoesOn self.old.faults self.new.faults }
        ensures cause { OnErr result (HasRisen self.old.faults self.new.faults) }
        ensures once { FailsOnce (IsErr result) self.old.faults self.new.faults }
        ensures quiet { is_quiet_from_now self.old → IsOk result × is_quiet_from_now self.new }
    {
        let fails = self.failing.contains(&self.count);
        self.count = self.count.saturating_add(1);
        if fails { Err(self.fail()) } else { Ok(()) }
    }

    // Counts a fault.
    fn fail(&mut self) -> Failed
        ensures counted { GoesOn self.old.faults self.new.faults }
        ensures risen { HasRisen self.old.faults self.new.faults }
        ensures once { self.new.faults ≤ self.old.faults + 1 }
        ensures same { (self.new.failing ≡ self.old.failing) × (self.new.count ≡ self.old.count) }
    {
        self.faults = self.faults.saturating_add(1);
        Failed
    }
}

impl MemShelf {
    ghost use Rattle.program_frame.specs.Shelf.{file_of};
    ghost use Rattle.program_frame.specs.Memory.{shelf_files, shelf_rest, shelf_given, shelf_faults, shelf_calls, shelf_failing, shelf_is_quiet, AddsFile, KeepsPlace};

    /// A shelf without files, none of whose calls is set to fail.
    pub fn new(alloc: Global) -> Self
        ensures no_files { (name : List ℕ) → file_of (shelf_files result) name ≡ None }
        ensures nothing_left { shelf_rest result ≡ [] }
        ensures none_failing { shelf_failing result ≡ [] }
        ensures quiet { shelf_is_quiet result }
        ensures no_calls { shelf_calls result ≡ 0 }
        ensures none_given { shelf_given result ≡ 0 }
        ensures no_faults { shelf_faults result ≡ 0 }
    {
        MemShelf {
            alloc,
            files: Vec::new(alloc),
            picked: None,
            at: 0,
            given: 0,
            calls: Calls {
                failing: Vec::new(alloc),
                count: 0,
                faults: 0,
            },
        }
    }

    /// Adds a file. Of two with the same name the later counts.
    pub fn add(&mut self, name: &str, bytes: &[u8]) -> Result<(), AllocError>
        ensures added { OnOk result
            (AddsFile (shelf_files self.old) name.now bytes.now (shelf_files self.new)) }
        ensures not_added { OnErr result (shelf_files self.new ≡ shelf_files self.old) }
        ensures place { KeepsPlace self.old self.new }
        ensures failing { shelf_failing self.new ≡ shelf_failing self.old }
    {
        let file = StoredFile {
            name: String::from_str(self.alloc, name)?,
            octets: Vec::from_slice(self.alloc, bytes)?,
        };
        self.files.push(file)?;
        Ok(())
    }

    /// Sets a call to fail. Calls of both kinds are numbered together, from 0.
    pub fn fail_at(&mut self, call: u64) -> Result<(), AllocError>
        ensures set { OnOk result (shelf_failing self.new ≡ shelf_failing self.old ++ call ∷ []) }
        ensures not_set { OnErr result (shelf_failing self.new ≡ shelf_failing self.old) }
        ensures place { KeepsPlace self.old self.new }
        ensures files { shelf_files self.new ≡ shelf_files self.old }
    {
        self.calls.failing.push(call)?;
        Ok(())
    }
}

impl Shelf for MemShelf {
    ghost use Rattle.program_frame.specs.Shelf.{file_of, IsPicked, Moves};
    ghost use Rattle.program_frame.specs.Memory.{shelf_state, shelf_files, shelf_rest, shelf_given, shelf_faults, shelf_is_quiet, is_set_to_fail, IsNextCall};

    ghost state = { shelf_state };

    fn pick(&mut self, name: &str) -> Result<(), Failed>
        ensures picked { OnOk result
            (IsPicked (shelf_files self.old) name.now (Some (shelf_rest self.new))) }
        ensures same { shelf_files self.new ≡ shelf_files self.old }
        ensures none_given { shelf_given self.new ≡ shelf_given self.old }
        ensures kept { GoesOn (shelf_given self.old) (shelf_given self.new) }
        ensures counted { GoesOn (shelf_faults self.old) (shelf_faults self.new) }
        ensures cause { OnErr result (HasRisen (shelf_faults self.old) (shelf_faults self.new)) }
        ensures once { FailsOnce (IsErr result) (shelf_faults self.old) (shelf_faults self.new) }
        ensures quiet { shelf_is_quiet self.old → IsSome (file_of (shelf_files self.old) name.now)
            → IsOk result × shelf_is_quiet self.new }
        ensures fails { is_set_to_fail self.old ≡ true → IsErr result }
        ensures answers { is_set_to_fail self.old ≡ false
            → IsSome (file_of (shelf_files self.old) name.now) → IsOk result }
        ensures next { IsNextCall self.old self.new }
        ensures left { OnErr result (shelf_rest self.new ≡ shelf_rest self.old) }
    {
        self.calls.begin()?;
        let Some(place) = find_latest(&self.files, name) else {
            return Err(self.calls.fail());
        };
        self.picked = Some(place);
        self.at = 0;
        Ok(())
    }

    fn read(&mut self, into: &mut [u8]) -> Result<usize, Failed>
        ensures bound { IfOk result (λ n. n ≤ length into.old) }
        ensures moved { IfOk result (λ n.
            Moves n (shelf_rest self.old) into.new (Some (shelf_rest self.new))) }
        ensures same { shelf_files self.new ≡ shelf_files self.old }
        ensures given { IfOk result (λ n. RisesBy n (shelf_given self.old) (shelf_given self.new)) }
        ensures none_given { OnErr result (shelf_given self.new ≡ shelf_given self.old) }
        ensures kept { GoesOn (shelf_given self.old) (shelf_given self.new) }
        ensures counted { GoesOn (shelf_faults self.old) (shelf_faults self.new) }
        ensures cause { OnErr result (HasRisen (shelf_faults self.old) (shelf_faults self.new)) }
        ensures once { FailsOnce (IsErr result) (shelf_faults self.old) (shelf_faults self.new) }
        ensures quiet { shelf_is_quiet self.old → IsOk result × shelf_is_quiet self.new }
        ensures fails { is_err result ≡ is_set_to_fail self.old }
        ensures next { IsNextCall self.old self.new }
        ensures left { OnErr result (shelf_rest self.new ≡ shelf_rest self.old) }
    {
        self.calls.begin()?;
        let rest = after(octets_at(&self.files, self.picked), self.at);
        let count = rest.len().min(into.len());
        into[..count].copy_from_slice(&rest[..count]);
        self.at += count;
        self.given = self.given.saturating_add(count as u64);
        Ok(count)
    }
}

impl MemSink {
    ghost use Rattle.program_frame.specs.Memory.{sink_held, sink_room, sink_faults};

    /// An empty sink with room for this many octets, which are reserved at once.
    pub fn with_room(alloc: Global, room: usize) -> Result<Self, AllocError>
        ensures empty { IfOk result (λ sink. sink_held sink ≡ []) }
        ensures room { IfOk result (λ sink. sink_room sink ≡ room) }
        ensures no_faults { IfOk result (λ sink. sink_faults sink ≡ 0) }
    {
        Ok(MemSink {
            octets: Vec::with_capacity(alloc, room)?,
            room,
            faults: 0,
        })
    }

    /// The octets written so far.
    pub fn held(&self) -> &[u8]
        ensures { result.now ≡ sink_held self.now }
    {
        &self.octets
    }
}

impl Sink for MemSink {
    ghost use Rattle.program_frame.specs.Memory.{sink_state};

    ghost state = { sink_state };

    fn write(&mut self, piece: &[u8]) -> Result<usize, Failed> {
        let count = piece.len().min(self.room);
        if count == 0 && !piece.is_empty() {
            self.faults = self.faults.saturating_add(1);
            return Err(Failed);
        }
        self.octets.extend_from_slice(&piece[..count]).unwrap();
        self.room -= count;
        Ok(count)
    }
}
