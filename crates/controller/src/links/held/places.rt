// Links put into their places and taken from them.
ghost use Rattle.std.specs.Prelude.{◌≡◌, ℕ, IfOk, IfSome, if◌then◌else◌, is_some, length, slice_set};
ghost use Rattle.controller.specs.HeldLinks.{kind_of, kind_of_link, kinds_of};
ghost use Rattle.controller.specs.Links.{link_number, open_number, waiting_number};
ghost use Rattle.law.specs.Steps.{is_open, is_waiting, link_at};
ghost use Rattle.law.specs.Steps.Link.{gone};

use super::HeldLinks;
use crate::links::{Link, OpenLink, WaitingLink};
use std::alloc::{AllocError, Global};

impl HeldLinks {
    // No links, and places for the numbers below `count`: 65,536 are enough for every opening.
    pub fn new(heap: Global, count: usize) -> Result<HeldLinks, AllocError>
        ensures none { IfOk result (λ held. (n : ℕ) → link_at (kinds_of held) n ≡ gone) }
        ensures places { IfOk result (λ held. length (kinds_of held) ≡ count) }
    {
        let mut places = Vec::with_capacity(heap, count)?;
        for _ in 0..count {
            places.push_reserved(None);
        }
        Ok(HeldLinks { places })
    }

    // The link of a number, if it is open.
    pub(crate) fn open_at(&self, number: u16) -> Option<&OpenLink>
        ensures some { is_some result ≡ is_open (link_at (kinds_of self.now) number) }
        ensures number { IfSome result (λ link. open_number link.now ≡ number) }
    {
        match self.places.get(usize::from(number)) {
            Some(Some(Link::Open(link))) => Some(link),
            _ => None,
        }
    }

    // Takes the link of a number from its place.
    #[tactic(auto, using(crate::proofs::Places::kinds_set, crate::proofs::Places::kind_at))]
    pub(crate) fn take(&mut self, number: u16) -> Option<Link>
        ensures kind { kind_of result ≡ link_at (kinds_of self.old) number }
        ensures number { IfSome result (λ link. link_number link ≡ number) }
        ensures kinds { kinds_of self.new ≡ slice_set (kinds_of self.old) number gone }
    {
        let place = self.places.get_mut(usize::from(number))?;
        place.take()
    }

    // Takes the link of a number from its place, if it waits.
    #[tactic(auto, using(crate::proofs::Places::put_back))]
    pub(crate) fn take_waiting(&mut self, number: u16) -> Option<WaitingLink>
        ensures some { is_some result ≡ is_waiting (link_at (kinds_of self.old) number) }
        ensures number { IfSome result (λ link. waiting_number link ≡ number) }
        ensures kinds { kinds_of self.new ≡ (if is_some result then slice_set (kinds_of self.old) number gone else kinds_of self.old) }
    {
        match self.take(number) {
            Some(Link::Waiting(link)) => Some(link),
            Some(Link::Open(link)) => {
                self.put(Link::Open(link));
                None
            }
            None => None,
        }
    }

    // Puts a link into its place.
    #[tactic(auto, using(crate::proofs::Places::kinds_set))]
    pub(crate) fn put(&mut self, link: Link)
        ensures { kinds_of self.new ≡ slice_set (kinds_of self.old) (link_number link) (kind_of_link link) }
    {
        let number = usize::from(link.number());
        match self.places.get_mut(number) {
            Some(place) => let_go(place.replace(link)),
            None => let_go(Some(link)),
        }
    }

    // Lets go of every link.
    pub fn end(self) {
        let HeldLinks { mut places } = self;
        while let Some(place) = places.pop() {
            let_go(place);
        }
        places.destroy_empty();
    }
}

// A link that nobody can use any more.
fn let_go(place: Option<Link>) {
    match place {
        Some(link) => {
            link.shut();
        }
        None => {}
    }
}
