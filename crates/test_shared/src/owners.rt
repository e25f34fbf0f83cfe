//! Values with several owners: no call copies what they own.
use crate::asserts::assert_same;
use crate::maps::client_of_many;
use clients::{Change, Client, Exact, Fault, Loan, NoFunction, OwnedClient, Shared, Team, Work};
use std::alloc::{AllocError, Allocator, Global};
use std::marker::Model;
use std::sync::Wait;
use std::thread::Threads;
use test_support::Refusing;

/// A byte that counts how often it was copied on its way. Contracts see the byte.
#[derive(Drop)]
struct Page {
    byte: u8,
    copies: u64,
}

impl Model for Page {
    ghost use Rattle.std.specs.Prelude.{ℕ};

    ghost Value = { ℕ };

    ghost view = { λ p. p.byte };
}

impl Clone for Page {
    ghost use Rattle.std.specs.Prelude.{◌≡◌};

    ghost is_clone = { λ x y. y ≡ x };

    fn clone(&self) -> Result<Page, AllocError> {
        Ok(Page {
            byte: self.byte,
            copies: self.copies.saturating_add(1),
        })
    }
}

impl Exact for Page {
    ghost copies_exactly = { λ x y e. e };
}

impl PartialEq for Page {
    ghost use Rattle.std.specs.Prelude.{nat_eq};
    ghost use Rattle.std.specs.Cmp.{partial_equiv_from_equiv};
    ghost use Rattle.std.specs.Cmp.{nat_eq_equiv};

    ghost eq = { nat_eq };

    ghost laws = { partial_equiv_from_equiv nat_eq_equiv };

    fn eq(&self, other: &Page) -> bool {
        self.byte == other.byte
    }
}

impl Eq for Page {
    ghost use Rattle.std.specs.Cmp.{nat_eq_equiv};

    ghost laws = { nat_eq_equiv };
}

/// A page that nobody has copied.
fn new_page(byte: u8) -> Page {
    Page { byte, copies: 0 }
}

/// A page with several owners.
type Pages = Shared<Page, Global>;

/// The byte of a page, and how often it was copied; 0 where there is none.
fn told(page: Option<&Pages>) -> (u8, u64) {
    match page {
        Some(page) => (page.byte, page.copies),
        None => (0, 0),
    }
}

/// A client of a map of such pages.
type Reader = OwnedClient<u64, Pages, NoFunction, Global>;

/// A page is left as it is; the byte and the copies of what is shown.
fn kept(page: Option<&Pages>) -> (Change<Pages>, (u8, u64)) {
    (Change::Keep, told(page))
}

/// What a get, a view, and an update that leaves the page as it is show of it.
fn read<R: Wait>(rt: &R, client: &mut Reader) -> Result<[(u8, u64); 3], Fault> {
    let got = told(client.get(rt, &1)?.as_ref());
    let viewed = client.view(rt, &1, told);
    Ok([got, viewed, client.update(rt, 1, kept)?])
}

/// A page's byte and, times 1,000, how often it was copied.
fn sum_of(page: &Pages) -> u64 {
    u64::from(page.byte).wrapping_add(page.copies.wrapping_mul(1000))
}

/// The sum of bytes and of copies that a walk by copies comes to.
fn walked<R: Wait>(rt: &R, client: &mut Reader) -> Result<u64, Fault> {
    let mut sum = 0u64;
    for visit in &client.walk(rt)? {
        for entry in &visit.entries {
            sum = sum.wrapping_add(sum_of(&entry.1));
        }
    }
    Ok(sum)
}

fn add(sum: u64, (_key, page): (u64, Pages)) -> u64 {
    sum.wrapping_add(sum_of(&page))
}

/// The sums of bytes and of copies that a walk by copies, a fold, and a walk in place come to.
fn walk<R: Wait>(rt: &R, client: &mut Reader) -> Result<[u64; 3], Fault> {
    let walked = walked(rt, client)?;
    let folded = client.fold(rt, 0u64, add)?;
    let mut shown = 0u64;
    client.show_each(rt, |_key: &u64, page: &Pages| {
        shown = shown.wrapping_add(sum_of(page));
    });
    Ok([walked, folded, shown])
}

/// Puts a page at 1, and one of which there is another owner at 2.
fn put_pages<R: Wait>(
    rt: &R,
    client: &mut Reader,
    alloc: Global,
    other: &Pages,
) -> Result<(), Fault> {
    client.put(rt, 1, Shared::new(alloc, new_page(3))?)?;
    client.put(rt, 2, other.clone()?)?;
    Ok(())
}

/// Takes a page out. Returns whether its last owner got it.
fn is_last<R: Wait>(rt: &R, client: &mut Reader, key: u64) -> Result<bool, Fault> {
    match client.remove(rt, &key)? {
        Some(page) => Ok(page.into_value().is_some()),
        None => Ok(false),
    }
}

/// Puts two pages, reads one and sets it to the other, walks, and takes both out. Returns what was
/// read before and after, what the walk showed, and whether the last owner got its page.
fn use_pages<R: Wait>(
    rt: &R,
    client: &mut Reader,
    alloc: Global,
) -> Result<([[(u8, u64); 3]; 2], [u64; 3], [bool; 2]), Fault> {
    let other = Shared::new(alloc, new_page(5))?;
    put_pages(rt, client, alloc, &other)?;
    let before = read(rt, client)?;
    client.update(rt, 1, |_page| (Change::Set(other), ()))?;
    let shown = [before, read(rt, client)?];
    let sums = walk(rt, client)?;
    let last = [is_last(rt, client, 1)?, is_last(rt, client, 2)?];
    Ok((shown, sums, last))
}

/// No call copies a page. The page that two keys have is got out by its last owner alone.
#[test]
fn a_page_with_several_owners_is_never_copied(rt: HostRuntime) {
    let mut client = client_of_many(rt.alloc()).expect(&rt, "no fault");
    let all = use_pages(&rt, &mut client, rt.alloc());
    drop(client);
    let read = [[(3, 0); 3], [(5, 0); 3]];
    assert_same(&rt, &all, &Ok((read, [10; 3], [false, true])));
}

/// How often a page was copied.
fn copies_of(page: Option<&Page>) -> Option<u64> {
    match page {
        Some(page) => Some(page.copies),
        None => None,
    }
}

/// Where the value is the page itself, a get copies it, and a view does not.
fn copies_of_one<R: Wait>(
    rt: &R,
    client: &mut OwnedClient<u64, Page, NoFunction, Global>,
) -> Result<[Option<u64>; 2], Fault> {
    client.put(rt, 1, new_page(3))?;
    let viewed = client.view(rt, &1, copies_of);
    Ok([viewed, copies_of(client.get(rt, &1)?.as_ref())])
}

#[test]
fn a_page_that_is_the_value_is_copied_by_a_get(rt: HostRuntime) {
    let mut client = client_of_many(rt.alloc()).expect(&rt, "no fault");
    let all = copies_of_one(&rt, &mut client);
    drop(client);
    assert_same(&rt, &all, &Ok([Some(0), Some(1)]));
}

/// The byte of a page that finds no memory to be shared, and comes back.
fn refused_byte<A: Allocator>(switch: &Refusing<Global>, alloc: A) -> Option<u8> {
    switch.refuse_after(0);
    let refused = Shared::new(alloc, new_page(3));
    switch.refuse_after(u64::MAX);
    match refused {
        Ok(_page) => None,
        Err(refused) => Some(refused.value.byte),
    }
}

/// Out of memory no page is shared, and it comes back.
#[test]
fn a_page_that_cannot_be_shared_comes_back(rt: HostRuntime) {
    let alloc = Refusing::new(rt.alloc());
    let byte = refused_byte(&alloc, &alloc);
    assert_same(&rt, &(byte, alloc.bytes_out()), &(Some(3), 0));
}

/// A map's values in threads: the page that all clients share.
#[derive(Drop)]
struct PostPage {
    page: Pages,
}

/// A client of a map of pages.
type Posting<'a, L> = Client<'a, L, u64, Pages, NoFunction, Global>;

impl Work<u64, Pages, NoFunction, Global> for PostPage {
    type Out = Result<u8, Fault>;

    fn work<L: Loan, R: Wait>(&self, rt: &R, client: &mut Posting<'_, L>) -> Result<u8, Fault> {
        let number = client.number() as u64;
        let page = self.page.clone()?;
        client.put(rt, number, page)?;
        let read = client.get(rt, &number)?;
        Ok(told(read.as_ref()).0)
    }
}

/// Posts a page by four clients. Returns the bytes that they read, and what the map's last owner has.
fn post<R: Threads + Wait + Sync>(
    rt: &R,
    alloc: Global,
) -> Result<(Vec<Result<u8, Fault>>, Option<u64>), Fault> {
    let page = Shared::new(alloc, new_page(5))?;
    let work = PostPage {
        page: page.clone()?,
    };
    let mut team = Team::new(alloc, 16, 4)?;
    let answers = team.work(rt, &work)?;
    drop(team);
    drop(work);
    let copies = page.into_value().map(|page| page.copies);
    Ok((answers, copies))
}

#[test]
fn a_page_is_shared_by_four_clients(rt: HostRuntime) {
    let (answers, copies) = post(&rt, rt.alloc()).expect(&rt, "no fault");
    assert_same(
        &rt,
        &(answers.as_slice(), copies),
        &([Ok(5); 4].as_slice(), Some(0)),
    );
}

/// Whether the example at `Shared` is as it says.
fn example<R: Wait>(rt: &R, client: &mut Reader, alloc: Global) -> Result<bool, Fault> {
    let page = Shared::new(alloc, new_page(5))?;
    client.put(rt, 1, page)?;
    let read = client.get(rt, &1)?;
    Ok(told(read.as_ref()) == (5, 0))
}

#[test]
fn the_example_of_a_shared_value_is_as_it_says(rt: HostRuntime) {
    let mut client = client_of_many(rt.alloc()).expect(&rt, "no fault");
    let found = example(&rt, &mut client, rt.alloc());
    drop(client);
    assert_same(&rt, &found, &Ok(true));
}
