// Where the entries that were put stand.
ghost use Rattle.std.specs.Prelude.{◌≡◌, ℕ, ◌+◌, ◌<◌, ◌≤◌, ◌==◌, true, false, [], length};
ghost use Rattle.std.specs.Prelude.{replicate, slice_set, slice_index_or, IfOk, OnOk};
ghost use Rattle.std.specs.List.{All, IsDistinct, list_any};
ghost use Rattle.agg_history.specs.Places.{place_at};

use std::alloc::{AllocError, Global};
use std::marker::Model;

/// A place for each vertex and iteration, 0 where there is none. It costs 4 bytes a vertex, and a
/// line of places for each vertex that was touched.
#[derive(Debug, Drop)]
pub struct Places {
    width: u32,
    slots: Vec<u32>,
    touched: Vec<u32>,
    places: Vec<u32>,
}

impl Model for Places {
    ghost use Rattle.agg_history.specs.Places.{PlaceTable, coded_place_table};

    ghost Value = { PlaceTable };

    ghost coded = { coded_place_table };

    ghost use Rattle.agg_history.specs.PlacesOf.{places_of, ArePlaces};

    ghost view = { places_of };

    ghost invariant = { ArePlaces };
}

impl Places {
    /// No places yet.
    pub fn new(alloc: Global, width: u32, vertices: u32) -> Result<Places, AllocError>
        requires { width ≤ 65 }
        ensures { IfOk result (λ p.
            p ≡ record {
              width = width;
              touched = [];
              table = replicate vertices (replicate width 0);
            }) }
    {
        let slots = vec![in alloc; 0u32; vertices as usize]?;
        Ok(Places {
            width,
            slots,
            touched: Vec::new(alloc),
            places: Vec::new(alloc),
        })
    }

    /// The vertices that were touched, in the order of the first touch.
    pub fn touched(&self) -> &[u32]
        ensures all { result.now ≡ self.now.touched }
        ensures inside { All (λ v. v < length self.now.table) self.now.touched }
        ensures distinct { IsDistinct (λ u v. u == v) self.now.touched }
        ensures few { length self.now.touched ≤ length self.now.table }
        ensures others { (v : ℕ) → v < length self.now.table
            → list_any (λ u. v == u) self.now.touched ≡ false
            → slice_index_or self.now.table v [] ≡ replicate self.now.width 0 }
    {
        let _width = self.width;
        self.touched.as_slice()
    }

    /// The place of a vertex at an iteration.
    pub fn get(&self, v: u32, i: u32) -> u32
        requires vertex { v < length self.now.table }
        requires iteration { i < self.now.width }
        ensures { result ≡ place_at self.now.table v i }
    {
        let slot = self.slots[v as usize];
        if slot == 0 {
            return 0;
        }
        self.places[(slot as usize - 1) * self.width as usize + i as usize]
    }

    /// Makes sure that a vertex has a line of places. No place changes.
    pub fn touch(&mut self, v: u32) -> Result<(), AllocError>
        requires { v < length self.old.table }
        ensures touched { OnOk result (list_any (λ u. v == u) self.new.touched ≡ true) }
        ensures width { self.new.width ≡ self.old.width }
        ensures table { self.new.table ≡ self.old.table }
    {
        if self.slots[v as usize] != 0 {
            return Ok(());
        }
        let old = self.places.len();
        self.places.resize(old + self.width as usize, 0)?;
        match self.touched.push(v) {
            Ok(()) => {
                self.slots[v as usize] = self.touched.len() as u32;
                Ok(())
            }
            Err(_) => {
                self.places.truncate(old);
                Err(AllocError)
            }
        }
    }

    /// Puts a place. The vertex was touched.
    pub fn set(&mut self, v: u32, i: u32, place: u32)
        requires vertex { v < length self.old.table }
        requires touched { list_any (λ u. v == u) self.old.touched ≡ true }
        requires iteration { i < self.old.width }
        ensures table { self.new
            ≡ record self.old {
              table = slice_set self.old.table v
                  (slice_set (slice_index_or self.old.table v []) i place);
            } }
        ensures there { place_at self.new.table v i ≡ place }
    {
        let slot = self.slots[v as usize];
        self.places[(slot as usize - 1) * self.width as usize + i as usize] = place;
    }
}
