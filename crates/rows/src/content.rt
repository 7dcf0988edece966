// What a message says: its data coding scheme and its pages.
use bounded::list::Bounded;
use site::message::{MOST_PAGES, Page};

mod pages;

#[derive(Drop)]
pub struct Content {
    coding: u8,
    pages: Bounded<Page, MOST_PAGES>,
}
