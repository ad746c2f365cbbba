// The check of a gate list for a sheet.
#![tactic(auto)]

ghost use Rattle.list_check.specs.Serving.{SentAtFirstFit};

pub mod acceptance;
pub mod fault;
mod fit;
mod front;
mod named;
mod queues;
mod rules;
mod service;
#[cfg(test)]
mod tests;

// A packet is sent at the first instant at which it fits, once it has arrived and those in front of it in its queue have ended.
pub fn sent_at_first_fit()
    ensures { SentAtFirstFit }
{}
