//! What a hub gives out, as the dispatcher takes it.
ghost use Rattle.std.specs.Prelude.{◌≡◌};

use crate::tally::Tally;
use flow_base::task::Task;
use flow_hub::feed::Feed;
use flow_hub::seats::Room;
use flow_pool::dispatcher::TaskSource;
use std::sync::Wait;

/// The tasks that are posted to a hub.
#[derive(Drop)]
pub(crate) struct Tasks<B: Room> {
    feed: Feed<B>,
    tally: Tally,
}

impl<B: Room> Tasks<B> {
    /// The tasks that this hub gives out, counted.
    pub(crate) fn new(feed: Feed<B>, tally: Tally) -> Tasks<B>
        ensures { result.feed ≡ feed }
    {
        Tasks { feed, tally }
    }

    /// Who gave them out.
    pub(crate) fn into_feed(self) -> Feed<B>
        ensures { result ≡ self.feed }
    {
        let Tasks {
            feed,
            tally: _tally,
        } = self;
        feed
    }
}

impl<B: Room> TaskSource for Tasks<B> {
    ghost use Rattle.std.specs.Prelude.{◌≡◌, true};

    // All that the hub has given out.
    ghost given = { λ p. p.feed.given };

    // The hub is closed.
    ghost ended = { λ p. p.feed.closed ≡ true };

    fn next<R: Wait>(&mut self, rt: &R) -> Option<Task> {
        let task = self.feed.next(rt);
        if task.is_some() {
            self.tally.begin();
        }
        task
    }
}
