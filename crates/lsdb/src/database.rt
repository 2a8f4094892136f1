//! A link-state database in rows and columns.
//!
//! Each LSA has a row. The rows of an `IndexMap` hold the LSAs by key, and each column holds one
//! value per row:
//!
//! ```text
//!  row │ rows: key ─> LSA │ ages │ kinds   │ routers
//! ─────┼──────────────────┼──────┼─────────┼────────────────────
//!    0 │ ..               │ age  │ LS type │ Advertising Router
//!    1 │ ..               │ age  │ LS type │ Advertising Router
//! ```
//!
//! Ageing by a second touches only `ages`. The LSAs of one router, or of one age, are found by a
//! scan of one column. A new key gets a new row at the end. If an LSA is purged, the last row moves
//! to its index, in all columns.
//!
//! The column of ages is the only source of the present age. The age in an LSA's header is its age
//! when it was installed.
//!
//! Contracts see a finite map from key to LSA at its present age, and the keys in the order of
//! their rows. Only `ages`, `kinds`, `keys` and `key_at` speak of rows.
//!
//! The index of a key in the `IndexMap` is its row, and the values of that map are the column of
//! LSAs. `by_router` and `at_age` have an exact result because contracts see the order of rows.
ghost use Rattle.std.specs.Prelude.{◌≡◌, ◌+◌, ◌<◌, ◌≤◌, ◌++◌, [], ◌∷◌, None, Some, IsSome, OnOk};
ghost use Rattle.std.specs.Prelude.{OnErr, IfOk, IfErr, IfSome, nat_le, count_by, length};
ghost use Rattle.std.specs.Prelude.{option_map, is_some, position, slice_get, vec_len};
ghost use Rattle.std.specs.Prelude.{vec_capacity, map as list_map};
ghost use Rattle.std.specs.FinMap as map;
ghost use Rattle.std.specs.Option.{option_copied};
ghost use Rattle.ospf_types.specs.Lsa.{key_of};
ghost use Rattle.lsa_codec.specs.Readers.{with_age};
ghost use Rattle.lsdb.specs.Databases.{install_refusal_of, IsInstallable, IsInstallRefusal};
ghost use Rattle.lsdb.specs.Databases.{IsPurgeRefusal, IsPurgeable, with_lsa, AddsKeys};
ghost use Rattle.lsdb.specs.Databases.{order_without, keys_in, lsas_of_keys, all_aged, aged_out};
ghost use Rattle.lsdb.specs.Databases.{comes_to_max_age, order_with, ages_of, keys_by, keys_aged};
ghost use Rattle.lsdb.specs.Columns.{is_key};
ghost use Rattle.lsdb.specs.Contents.{at_age_beside, body_at, IsDatabaseSound, IsOrder, TellsUseAt};
ghost use Rattle.lsdb.specs.Contents.{TellsUseOf};

use crate::contents::is_used_otherwise;
use crate::refusal::{InstallRefusal, NoLsa, PurgeRefusal};
use indexmap::IndexMap;
use lsa_codec::Checked;
use lsa_order::{Header, Newer, newer};
use ospf_types::WordHash;
use ospf_types::key::Key;
use ospf_types::lsa::MAX_AGE;
use ospf_types::memory::Memory;
use std::alloc::Global;
use std::hash::RandomState;
use std::marker::Model;

/// A link-state database (RFC 2328, 12): LSAs by key, each at its present age.
///
/// A row keeps its index until its own LSA is purged, or until it is the last row and moves to the
/// index of a purged one.
pub struct Database {
    rows: IndexMap<Key, Checked, WordHash>,
    ages: Vec<u16>,
    kinds: Vec<u8>,
    routers: Vec<u32>,
    limit: u32,
}

// proof: a value is dropped by one call, not part by part at each exit of a function.
impl Drop for Database {
    fn drop(self) {
        let Database {
            rows: _rows,
            ages: _ages,
            kinds: _kinds,
            routers: _routers,
            limit: _,
        } = self;
    }
}

impl Model for Database {
    ghost use Rattle.std.specs.FinMap as map;
    ghost use Rattle.std.specs.Coded.{Coded, codes};
    ghost use Rattle.ospf_types.specs.Keys.{key_code};
    ghost use Rattle.lsdb.specs.Databases.{DatabaseValue, Database as LsaMap};

    ghost Value = { DatabaseValue };

    ghost coded = { let lsas : Coded LsaMap = map.code key_code (Prim.hlevel codes) in Prim.hlevel (codes, lsas) };

    ghost use Rattle.lsdb.specs.Columns.{database_of, AreColumns};

    ghost view = { λ d. database_of d.rows.entries d.ages.items d.limit };

    ghost invariant = { λ d. AreColumns d.rows.entries d.ages.items d.kinds.items d.routers.items d.limit };
}

impl Database {
    /// Creates an empty database for at most `limit` LSAs. `hashing` supplies the keys of its hash
    /// function.
    pub fn new(alloc: Global, limit: u32, hashing: RandomState) -> Database
        ensures { result ≡ record { lsas = map.empty; order = []; limit = limit } }
    {
        Database {
            rows: IndexMap::with_hasher(alloc, WordHash::new(hashing)),
            ages: Vec::new(alloc),
            kinds: Vec::new(alloc),
            routers: Vec::new(alloc),
            limit,
        }
    }

    /// Returns the number of LSAs.
    pub fn len(&self) -> usize
        ensures value { result ≡ map.len self.now.lsas }
        ensures sound { IsDatabaseSound self.now.lsas }
        ensures within { map.len self.now.lsas ≤ self.now.limit }
        ensures ordered { IsOrder self.now }
    {
        self.rows.len()
    }

    /// Returns the LSA with this key and its present age in seconds. The age in its header is its
    /// age when it was installed.
    pub fn get(&self, key: Key) -> Option<(&Checked, u16)>
        ensures value { at_age_beside result ≡ map.get self.now.lsas key }
        ensures own { IfSome result (λ found. key_of found.0.now ≡ key) }
    {
        let (row, _, lsa) = self.rows.get_full(&key)?;
        Some((lsa, self.ages[row]))
    }

    /// Returns the LSA with this key if it is below MaxAge, and so is used in calculations.
    pub fn usable(&self, key: Key) -> Option<&Checked>
        ensures body { option_map (λ l. l.now.body) result ≡ body_at self.now.lsas key }
        ensures own { IfSome result (λ l. key_of l.now ≡ key) }
    {
        let (lsa, age) = self.get(key)?;
        if age < MAX_AGE { Some(lsa) } else { None }
    }

    /// Returns the reason why the LSA would not be installed, memory aside (RFC 2328, 13.1), or
    /// `None`.
    pub fn install_refusal(&self, lsa: &Checked) -> Option<InstallRefusal>
        ensures { result ≡ install_refusal_of self.now.lsas self.now.limit lsa.now }
    {
        match self.held(lsa.key()) {
            // 13.1: the newer of two instances.
            Some(held) => match newer(&held, &lsa.header()) {
                Newer::First => Some(InstallRefusal::Older),
                Newer::Same => Some(InstallRefusal::Same),
                Newer::Second => None,
            },
            None if self.is_full() => Some(InstallRefusal::Full),
            None => None,
        }
    }

    /// Installs the LSA in place of the instance with its key, if there is one (RFC 2328, 13.2).
    /// Returns true if this changes what calculations use.
    ///
    /// # Errors
    ///
    /// Returns `Older` or `Same` if the database instance is newer or the same (13.1). Returns
    /// `Full` if the key is new and the database is at its limit, or `Memory`. The database is then
    /// unchanged.
    pub fn install(&mut self, lsa: Checked) -> Result<bool, InstallRefusal>
        ensures refused { IfErr result (IsInstallRefusal self.old.lsas self.old.limit lsa) }
        ensures unchanged { OnErr result (self.new ≡ self.old) }
        ensures accepted { OnOk result (IsInstallable self.old lsa) }
        ensures installed { OnOk result (self.new.lsas ≡ with_lsa self.old.lsas lsa) }
        ensures order { OnOk result (self.new.order ≡ order_with self.old (key_of lsa)) }
        ensures limit { OnOk result (self.new.limit ≡ self.old.limit) }
        ensures changed { IfOk result (TellsUseOf self.old.lsas lsa) }
    {
        if let Some(refusal) = self.install_refusal(&lsa) {
            return Err(refusal);
        }
        match self.put(lsa) {
            Ok(changed) => Ok(changed),
            Err(_) => Err(InstallRefusal::Memory),
        }
    }

    /// Installs an LSA that `install_refusal` does not refuse (RFC 2328, 13.2). Returns true if
    /// this changes what calculations use.
    ///
    /// A state calls `install_refusal` before, as the refusal 28 of its journal comes between the
    /// refusals of the database and 30 Memory. No check is made twice.
    ///
    /// # Errors
    ///
    /// Returns `Memory` if memory runs out. The database is then unchanged.
    pub fn put(&mut self, lsa: Checked) -> Result<bool, Memory>
        requires { IsInstallable self.old lsa }
        ensures unchanged { OnErr result (self.new ≡ self.old) }
        ensures installed { OnOk result (self.new.lsas ≡ with_lsa self.old.lsas lsa) }
        ensures order { OnOk result (self.new.order ≡ order_with self.old (key_of lsa)) }
        ensures limit { OnOk result (self.new.limit ≡ self.old.limit) }
        ensures changed { IfOk result (TellsUseOf self.old.lsas lsa) }
    {
        // 13.2: the contents are compared, and the LSA replaces the database instance.
        let (row, changed) = self.compared(&lsa);
        match row {
            Some(row) => self.replace(row, lsa),
            None => self.append(lsa)?,
        }
        Ok(changed)
    }

    /// Sets the age of the LSA with this key to MaxAge (RFC 2328, 14.1). Returns true if the LSA
    /// was usable before.
    ///
    /// # Errors
    ///
    /// Returns `NoLsa` if the database has no LSA with this key. It is then unchanged.
    pub fn age_out(&mut self, key: Key) -> Result<bool, NoLsa>
        ensures absent { OnErr result (map.get self.old.lsas key ≡ None) }
        ensures there { OnOk result (IsSome (map.get self.old.lsas key)) }
        ensures aged { self.new.lsas ≡ aged_out self.old.lsas key }
        ensures order { self.new.order ≡ self.old.order }
        ensures limit { self.new.limit ≡ self.old.limit }
        ensures changed { IfOk result (TellsUseAt self.old.lsas key) }
    {
        match self.row_of(key) {
            Some(row) => {
                // 14.1: premature ageing sets the age to MaxAge.
                let was_used = self.ages[row] < MAX_AGE;
                self.ages[row] = MAX_AGE;
                Ok(was_used)
            }
            None => Err(NoLsa),
        }
    }

    /// Removes the LSA with this key, which has to be at MaxAge (RFC 2328, 14). The last row moves
    /// to its index.
    ///
    /// # Errors
    ///
    /// Returns `NoLsa` if the database has no LSA with this key, or `NotMaxAge` if the LSA is below
    /// MaxAge. The database is then unchanged.
    pub fn purge(&mut self, key: Key) -> Result<(), PurgeRefusal>
        ensures refused { IfErr result (IsPurgeRefusal self.old.lsas key) }
        ensures unchanged { OnErr result (self.new ≡ self.old) }
        ensures accepted { OnOk result (IsPurgeable self.old.lsas key) }
        ensures purged { OnOk result (self.new.lsas ≡ map.remove self.old.lsas key) }
        ensures order { OnOk result (self.new.order ≡ order_without self.old key) }
        ensures limit { self.new.limit ≡ self.old.limit }
    {
        match self.row_of(key) {
            None => Err(PurgeRefusal::NoLsa),
            Some(row) if self.ages[row] < MAX_AGE => Err(PurgeRefusal::NotMaxAge),
            // 14: an LSA at MaxAge is removed.
            Some(row) => {
                self.rows.swap_remove_index(row);
                self.ages.swap_remove(row);
                self.kinds.swap_remove(row);
                self.routers.swap_remove(row);
                Ok(())
            }
        }
    }

    /// Ages the LSAs by one second: each age below MaxAge rises by one (RFC 2328, 14). Returns the
    /// number of LSAs that reached MaxAge.
    pub fn second(&mut self) -> usize
        ensures aged { self.new.lsas ≡ all_aged self.old.lsas }
        ensures order { self.new.order ≡ self.old.order }
        ensures limit { self.new.limit ≡ self.old.limit }
        ensures came { result ≡ count_by comes_to_max_age (map.values self.old.lsas) }
    {
        let ages = self.ages.as_mut_slice();
        lanes::second(ages)
    }

    /// Appends the keys of the LSAs of an Advertising Router, in the order of their rows.
    ///
    /// # Errors
    ///
    /// Returns `Memory` if memory runs out. `keys` is then unchanged.
    pub fn by_router(&self, router: u32, keys: &mut Vec<Key>) -> Result<(), Memory>
        ensures found { OnOk result (AddsKeys keys.old keys.new (keys_by router self.now)) }
        ensures unchanged { OnErr result (keys.new.items ≡ keys.old.items) }
    {
        let mut rows = Vec::new(*self.routers.allocator());
        lanes::rows_of(&self.routers, router, &mut rows)?;
        self.add_keys(&rows, keys)
    }

    /// Appends the keys of the LSAs whose present age is `age` seconds, in the order of their rows.
    ///
    /// # Errors
    ///
    /// Returns `Memory` if memory runs out. `keys` is then unchanged.
    pub fn at_age(&self, age: u16, keys: &mut Vec<Key>) -> Result<(), Memory>
        ensures found { OnOk result (AddsKeys keys.old keys.new (keys_aged age self.now)) }
        ensures unchanged { OnErr result (keys.new.items ≡ keys.old.items) }
    {
        let mut rows = Vec::new(*self.ages.allocator());
        lanes::rows_at(&self.ages, age, &mut rows)?;
        self.add_keys(&rows, keys)
    }

    /// Returns the present ages in seconds, one per row.
    pub fn ages(&self) -> &[u16]
        ensures { result.now ≡ ages_of self.now }
    {
        &self.ages
    }

    /// Returns the LS types, one per row.
    pub fn kinds(&self) -> &[u8]
        ensures { result.now ≡ list_map (λ key. key.kind) self.now.order }
    {
        &self.kinds
    }

    /// Returns the keys of all LSAs, one per row.
    pub fn keys(&self) -> &[Key]
        ensures value { result.now ≡ self.now.order }
        ensures ordered { IsOrder self.now }
    {
        let keys = self.rows.keys();
        keys.as_slice()
    }

    /// Returns the key of the row.
    pub fn key_at(&self, row: usize) -> Option<&Key>
        ensures { option_copied result ≡ slice_get self.now.order row }
    {
        let (key, _) = self.rows.get_index(row)?;
        Some(key)
    }

    /// Returns copies of the LSAs at their present age, in the order of their keys.
    ///
    /// # Errors
    ///
    /// Returns `Memory` if memory runs out.
    pub fn lsas(&self) -> Result<Vec<Checked>, Memory>
        ensures { IfOk result (λ lsas. lsas.items ≡ map.values self.now.lsas) }
    {
        let mut keys = Vec::from_slice(*self.ages.allocator(), self.rows.keys().as_slice())?;
        keys.sort_unstable();
        self.copies(&keys)
    }
}

impl Database {
    // Returns the row of the key.
    fn row_of(&self, key: Key) -> Option<usize>
        ensures row { result ≡ position (is_key key) self.now.order }
        ensures found { is_some result ≡ is_some (map.get self.now.lsas key) }
    {
        self.rows.get_index_of(&key)
    }

    // Returns the row of the LSA's key, and true if installing the LSA changes what calculations
    // use.
    fn compared(&self, lsa: &Checked) -> (Option<usize>, bool)
        ensures row { result.0 ≡ position (is_key (key_of lsa.now)) self.now.order }
        ensures found { is_some result.0 ≡ is_some (map.get self.now.lsas (key_of lsa.now)) }
        ensures changed { TellsUseOf self.now.lsas lsa.now result.1 }
    {
        match self.in_row(lsa.key()) {
            Some((row, held, age)) => (Some(row), is_used_otherwise(Some((held, age)), lsa)),
            None => (None, is_used_otherwise(None, lsa)),
        }
    }

    // Returns the row of the key, and its LSA with the present age.
    fn in_row(&self, key: Key) -> Option<(usize, &Checked, u16)>
        ensures value { option_map (λ x. with_age x.1.now x.2) result ≡ map.get self.now.lsas key }
        ensures row { option_map (λ x. x.0) result ≡ position (is_key key) self.now.order }
    {
        let (row, _, lsa) = self.rows.get_full(&key)?;
        Some((row, lsa, self.ages[row]))
    }

    // Returns the header of the LSA with this key, at its present age.
    fn held(&self, key: Key) -> Option<Header>
        ensures { result ≡ option_map (λ l. l.header) (map.get self.now.lsas key) }
    {
        let (lsa, age) = self.get(key)?;
        Some(Header {
            age,
            ..lsa.header()
        })
    }

    // Returns true if the number of LSAs is at its limit.
    fn is_full(&self) -> bool
        ensures { result ≡ nat_le self.now.limit (map.len self.now.lsas) }
    {
        self.limit as usize <= self.len()
    }

    // Replaces the LSA in the row of its key.
    fn replace(&mut self, row: usize, lsa: Checked)
        requires { position (is_key (key_of lsa)) self.old.order ≡ Some row }
        ensures installed { self.new.lsas ≡ with_lsa self.old.lsas lsa }
        ensures order { self.new.order ≡ self.old.order }
        ensures limit { self.new.limit ≡ self.old.limit }
    {
        self.ages[row] = lsa.header().age;
        self.rows[row] = lsa;
    }

    // Appends the LSA in a new row. Memory for all columns is reserved before any of them changes.
    fn append(&mut self, lsa: Checked) -> Result<(), Memory>
        requires absent { position (is_key (key_of lsa)) self.old.order ≡ None }
        requires room { map.len self.old.lsas < self.old.limit }
        ensures unchanged { OnErr result (self.new ≡ self.old) }
        ensures installed { OnOk result (self.new.lsas ≡ with_lsa self.old.lsas lsa) }
        ensures order { OnOk result (self.new.order ≡ self.old.order ++ key_of lsa ∷ []) }
        ensures limit { self.new.limit ≡ self.old.limit }
    {
        let key = lsa.key();
        let age = lsa.header().age;
        self.ages.reserve(1)?;
        self.kinds.reserve(1)?;
        self.routers.reserve(1)?;
        self.rows.insert(key, lsa)?;
        push_in_room(&mut self.ages, age);
        push_in_room(&mut self.kinds, key.kind);
        push_in_room(&mut self.routers, key.router);
        Ok(())
    }

    // Appends the keys of the rows. Memory for all of them is reserved before the first is
    // appended.
    fn add_keys(&self, rows: &[u32], keys: &mut Vec<Key>) -> Result<(), Memory>
        ensures found { OnOk result (AddsKeys keys.old keys.new (keys_in self.now rows.now)) }
        ensures unchanged { OnErr result (keys.new.items ≡ keys.old.items) }
    {
        keys.reserve(rows.len())?;
        for row in rows {
            if let Some(key) = self.key_at(*row as usize) {
                push_in_room(keys, *key);
            }
        }
        Ok(())
    }

    // Returns copies of the LSAs with these keys, at their present age. A key without an LSA is
    // skipped.
    fn copies(&self, keys: &[Key]) -> Result<Vec<Checked>, Memory>
        ensures { IfOk result (λ lsas. lsas.items ≡ lsas_of_keys self.now.lsas keys.now) }
    {
        let mut lsas = Vec::with_capacity(*self.ages.allocator(), keys.len())?;
        for key in keys {
            if let Some(lsa) = self.copy_of(*key)? {
                lsas.push(lsa)?;
            }
        }
        Ok(lsas)
    }

    // Returns a copy of the LSA with this key, at its present age.
    fn copy_of(&self, key: Key) -> Result<Option<Checked>, Memory>
        ensures { IfOk result (λ copy. copy ≡ map.get self.now.lsas key) }
    {
        match self.rows.get_full(&key) {
            Some((row, _, lsa)) => {
                let mut copy = lsa.copy(*self.ages.allocator())?;
                copy.set_age(self.ages[row]);
                Ok(Some(copy))
            }
            None => Ok(None),
        }
    }
}

// Appends a value to a list that has room for it.
fn push_in_room<T: Drop>(column: &mut Vec<T>, value: T)
    requires { vec_len column.old < vec_capacity column.old }
    ensures items { column.new.items ≡ column.old.items ++ value ∷ [] }
    ensures len { vec_len column.new ≡ vec_len column.old + 1 }
    ensures capacity { vec_capacity column.old ≤ vec_capacity column.new }
{
    let _ = column.push(value);
}
