// The pages of a message: Message Content elements, of which as many stand one after the other as were announced.
#![tactic(auto)]

pub mod content;
pub mod measuring;
pub mod page;
pub mod pages;
pub mod text;
