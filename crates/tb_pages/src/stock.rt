ghost use Rattle.std.specs.Prelude.{◌≡◌, ◌≤◌, None, Some, IfOk, flat_map, length};
ghost use Rattle.std.specs.Option.{ForSome};
ghost use Rattle.tb_base.specs.Persons.{AreDistinct};
ghost use Rattle.tb_model.specs.Pages.{records_in};
ghost use Rattle.tb_pages.specs.declared.pages.TheConstants.{PAGES};
ghost use Rattle.tb_pages.specs.Books.{keys_in};
ghost use Rattle.tb_pages.specs.Fillings.{ArePlaced};
ghost use Rattle.tb_pages.specs.Registers.{IsRegister};
ghost use Rattle.tb_pages.specs.Stocks.{IsBookOf, IsFirst, IsStock, keys_of};

use crate::book::Book;
use crate::cutting::total;
use crate::filling::book_for;
use crate::pages::Pages;
use crate::register::Register;
use std::alloc::Global;
use std::thread::Threads;
use tb_base::{Memory, Record};

/// Records in pages, how many there are, and the key book that has each person's page, if it was
/// made. It is what a release keeps: release 0 has no key book, since nobody asks for a person
/// before a next release is made.
#[derive(Drop)]
pub struct Stock {
    pub pages: Pages,
    pub book: Option<Book>,
    pub living: usize,
}

// The key book of pages, shared; where there is none, it is made.
fn book_of(alloc: Global, pages: &Pages, book: &Option<Book>) -> Result<Book, Memory>
    requires placed { ForSome book.now (λ b. ArePlaced b pages.now) }
    requires distinct { AreDistinct (records_in pages.now) }
    requires few { length pages.now ≤ PAGES }
    ensures { IfOk result (λ made. IsBookOf pages.now book.now made) }
{
    match book {
        Some(there) => {
            let shared = there.share(alloc)?;
            Ok(shared)
        }
        None => {
            let made = book_for(alloc, pages)?;
            Ok(made)
        }
    }
}

impl Stock {
    // What these pages hold, so many records, without a key book.
    fn without_book(pages: Pages, living: usize) -> Stock
        ensures { result ≡ record { pages = pages; book = None; living = living } }
    {
        Stock {
            pages,
            book: None,
            living,
        }
    }

    /// These records, each put into the pages after the other, with stamp 0, and no key book. The
    /// list of records is given up page by page, so that no second list of them all stands. One
    /// thread makes all pages.
    pub fn first(alloc: Global, records: Vec<Record>) -> Result<Stock, Memory>
        ensures { IfOk result (λ stock. IsFirst records.items stock) }
    {
        let living = records.len();
        let pages = Pages::of(alloc, records)?;
        Ok(Stock::without_book(pages, living))
    }

    /// The same as `first` makes of the records of these lists, one list after another, with pages
    /// made in as many threads as there are processors.
    pub fn first_in_parts(
        rt: &(impl Threads + Sync),
        alloc: Global,
        lists: Vec<Vec<Record>>,
    ) -> Result<Stock, Memory>
        ensures { IfOk result
            (λ stock. IsFirst (flat_map (λ list. list.items) lists.items) stock) }
    {
        let living = total(&lists)?;
        let pages = Pages::in_parts(rt, alloc, lists)?;
        Ok(Stock::without_book(pages, living))
    }

    /// What a register has. It takes no memory.
    pub fn of(register: Register) -> Stock
        ensures { result ≡ record {
          pages = register.pages;
          book = Some register.book;
          living = register.living;
        } }
    {
        let Register {
            pages,
            book,
            living,
        } = register;
        Stock {
            pages,
            book: Some(book),
            living,
        }
    }

    /// A register of the same pages and shards, shared. Where there is no key book, it takes memory
    /// for one of all records.
    pub fn share(&self, alloc: Global) -> Result<Register, Memory>
        requires stock { IsStock self.now }
        requires few { length self.now.pages ≤ PAGES }
        ensures pages { IfOk result (λ register. register.pages ≡ self.now.pages) }
        ensures keys { IfOk result (λ register. keys_in register.book ≡ keys_of self.now) }
        ensures whole { IfOk result (λ register. IsRegister register) }
    {
        let book = book_of(alloc, &self.pages, &self.book)?;
        let pages = self.pages.share(alloc)?;
        Ok(Register {
            pages,
            book,
            living: self.living,
        })
    }
}
