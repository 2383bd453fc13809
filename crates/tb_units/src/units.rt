// Dwellings and who lives in them.

ghost use Rattle.std.specs.Prelude.{◌≡◌, ◌≢◌, ◌<◌, ◌≤◌, false, Ok, Err, IfErr, IfNone, IfOk};
ghost use Rattle.std.specs.Prelude.{IfSome, length};
ghost use Rattle.tb_base.specs.declared.people.TheConstants.{MOST_PERSONS};
ghost use Rattle.tb_units.specs.Chains.{last_to};
ghost use Rattle.tb_units.specs.Pairs.{has_first, pair_at, IsAt};
ghost use Rattle.tb_units.specs.Units.{units_of, with_links_of};
ghost use Rattle.tb_units.specs.Whole.{AreRead, IsSound};

use crate::chains::{Chains, chains_of};
use crate::fault::UnitsFault;
use crate::links::Links;
use crate::pairs::Pairs;
use crate::read::{links_over, read_dwellings};
use std::alloc::Global;
use std::marker::Model;
use tb_base::Keys;

/// Dwellings, each a number and a key, and links, each a person and the number of the dwelling in
/// which the person lives; both in the order of their files. No two dwellings have one number, and
/// no two links one person.
///
/// Beside them it keeps for each dwelling its last link, and for each link the one before it to the
/// same dwelling. A person's link is found by one access where the greatest person is at most some
/// seven times the number of links, and else by hash. A dwelling takes 12 bytes, and a link 40 or
/// little more.
#[derive(Drop)]
pub struct Units {
    dwellings: Vec<(u32, u32)>,
    links: Links,
    chains: Chains,
}

impl Model for Units {
    ghost use Rattle.tb_model.specs.Units.{UnitsValue};
    ghost use Rattle.tb_units.specs.Whole.{AreWhole};

    ghost Value = { UnitsValue };

    ghost view = { λ u. record { dwellings = u.dwellings.items; links = u.links } };

    ghost invariant = { λ u. AreWhole (record { dwellings = u.dwellings.items; links = u.links })
        u.chains.heads.items u.chains.nexts.items };
}

impl Units {
    /// Reads dwellings under a limit, which is that of the links too, and a key range, and who
    /// lives in them.
    ///
    /// `dwellings` is a CSV file with the columns `dwelling` and `dwelling_key`, `links` one with
    /// the columns `person` and `dwelling`, each in any order and beside any others, with a record
    /// for each dwelling and for each link. The first fault of the dwellings refuses them, and else
    /// the first of the links, with the number of its record from 1, or 0 for the header. It takes
    /// memory for both, and for the chains.
    pub fn read(
        alloc: Global,
        most: usize,
        keys: Keys,
        dwellings: &[u8],
        links: &[u8],
    ) -> Result<Units, UnitsFault>
        requires { most ≤ MOST_PERSONS }
        // What is read is what the files say.
        ensures ok { IfOk result (λ units. units_of most keys dwellings.now links.now ≡ Ok units) }
        // A refusal is the first fault of the files. Memory can run out at any file.
        ensures refused { IfErr result (λ e. e ≢ UnitsFault.Memory
            → units_of most keys dwellings.now links.now ≡ Err e) }
    {
        match read_dwellings(alloc, most, keys, dwellings) {
            Ok(read) => Units::over(alloc, most, read, links),
            Err(fault) => Err(fault),
        }
    }

    // Dwellings that were read under a limit, and the links of a file.
    fn over(alloc: Global, most: usize, dwellings: Pairs, file: &[u8]) -> Result<Units, UnitsFault>
        requires within { most ≤ MOST_PERSONS }
        requires read { AreRead most dwellings }
        ensures ok { IfOk result (λ units. with_links_of most dwellings file.now ≡ Ok units) }
        ensures refused { IfErr result (λ e. e ≢ UnitsFault.Memory
            → with_links_of most dwellings file.now ≡ Err e) }
    {
        let links = match links_over(alloc, most, &dwellings, file) {
            Ok(read) => read,
            Err(fault) => return Err(fault),
        };
        let chains = match chains_of(alloc, &dwellings, &links) {
            Ok(made) => made,
            Err(_) => return Err(UnitsFault::Memory),
        };
        let Ok(list) = dwellings.to_list(alloc) else {
            return Err(UnitsFault::Memory);
        };
        Ok(Units {
            dwellings: list,
            links: Links::of(alloc, links),
            chains,
        })
    }

    /// What is true of all dwellings and links that were read. It does nothing, and lets a caller's
    /// proof know this.
    pub fn soundness(&self)
        ensures { IsSound self.now }
    {
        let _ = &self.chains;
    }

    /// How many dwellings there are.
    pub fn dwellings(&self) -> usize
        ensures { result ≡ length self.now.dwellings }
    {
        self.dwellings.len()
    }

    /// The key of dwelling `d`, from 0.
    #[inline]
    pub fn key(&self, d: usize) -> u16
        requires { d < length self.now.dwellings }
        ensures { result ≡ (pair_at self.now.dwellings d).1 }
    {
        self.dwellings[d].1 as u16
    }

    /// How many links there are.
    pub fn links(&self) -> usize
        ensures { result ≡ length self.now.links }
    {
        self.links.len()
    }

    /// The place of a person's link, if there is one. A look-up by hash begins at a place where the
    /// link may be.
    #[inline]
    pub fn link_of(&self, person: u32, guess: usize) -> Option<usize>
        ensures some { IfSome result (λ k. IsAt self.now.links person k) }
        ensures none { IfNone result (has_first self.now.links person ≡ false) }
    {
        self.links.find(person, guess)
    }

    /// One more than the place of the last link to dwelling `d`, and 0 where there is none.
    #[inline]
    pub fn last_link(&self, d: usize) -> u32
        requires { d < length self.now.dwellings }
        ensures { result ≡ last_to self.now.links (pair_at self.now.dwellings d).0
            (length self.now.links) }
    {
        self.chains.heads[d]
    }

    /// One more than the place of the last link before place `k` to the dwelling of link `k`, and 0
    /// where there is none.
    #[inline]
    pub fn link_before(&self, k: usize) -> u32
        requires { k < length self.now.links }
        ensures { result ≡ last_to self.now.links (pair_at self.now.links k).1 k }
    {
        self.chains.nexts[k]
    }
}
