// What a scenario has come to: the group, what names stand for, and the words of each place.
use crate::answers::Answer;
use crate::making::make_group;
use crate::reasons::Reason;
use group::any::AnySite;
use group::group::Group;
use script::asks::Source;
use site::handles::Handle;
use site::refusals::Refusal;
use std::alloc::Global;
use std::collections::BTreeMap;
use text::numbers::hex_words;

mod calls;

// An edit under a name: a draft, or one that was posted.
#[derive(Clone, Copy)]
enum Edit {
    Draft(Handle),
    Posted(Handle),
}

// A name is the part of the scenario where it was given.
#[derive(Drop)]
pub struct Stage<'a> {
    pub heap: Global,
    // None where a group cannot have so many sites.
    group: Option<Group<AnySite>>,
    // Of each site of the group, whether its line was played. Its length tells which sites there are, which a set of those
    // played would not.
    made: Vec<bool>,
    edits: BTreeMap<&'a [u8], Edit>,
    messages: BTreeMap<&'a [u8], Vec<u32>>,
    places: Vec<Vec<u32>>,
}

impl<'a> Stage<'a> {
    /// A stage for a group of so many sites, which the text makes.
    pub fn new(heap: Global, sites: u32, text: &[u8]) -> anyhow::Result<Stage<'a>> {
        let group = make_group(heap, sites, text)?;
        let count = if group.is_some() { sites as usize } else { 0 };
        Ok(Stage {
            heap,
            group,
            made: vec![in heap; false; count]?,
            edits: BTreeMap::new(heap),
            messages: BTreeMap::new(heap),
            places: Vec::new(heap),
        })
    }

    // Whether the line that makes the site was played.
    fn is_made(&self, site: u32) -> bool {
        self.made.get(site as usize) == Some(&true)
    }

    /// Plays the line that makes the site.
    pub fn make(&mut self, site: u32) -> Result<Answer<'a>, Reason> {
        let Some(made) = self.made.get_mut(site as usize) else {
            return Ok(Answer::Declined(Refusal::NotFresh));
        };
        if *made {
            return Err(Reason::MadeTwice);
        }
        *made = true;
        Ok(Answer::Made)
    }

    // The draft of that name. Apart from `posted`: one for both would be handed a kind and a reason, and match on them.
    fn draft(&self, name: &[u8]) -> Result<Handle, Reason> {
        match self.edits.get(name) {
            Some(Edit::Draft(handle)) => Ok(*handle),
            _ => Err(Reason::NoDraft),
        }
    }

    // The posted edit of that name.
    fn posted(&self, name: &[u8]) -> Result<Handle, Reason> {
        match self.edits.get(name) {
            Some(Edit::Posted(handle)) => Ok(*handle),
            _ => Err(Reason::NoPosted),
        }
    }

    // A copy of the words that a line hands in.
    fn words_of(&self, source: Source) -> Result<Vec<u32>, Reason> {
        match source {
            Source::Named(name) => Ok(self.messages.get(name).ok_or(Reason::NoWords)?.clone()?),
            Source::Spelt(text) => hex_words(self.heap, text)?.ok_or(Reason::NoWords),
        }
    }

    // A copy of the words of a place.
    fn words_at(&self, place: u32) -> Result<Vec<u32>, Reason> {
        let place = (place as usize).checked_sub(1).ok_or(Reason::NoPlace)?;
        Ok(self.places.get(place).ok_or(Reason::NoPlace)?.clone()?)
    }

    /// Gives words the next place.
    pub fn send(&mut self, source: Source) -> Result<Answer<'a>, Reason> {
        let words = self.words_of(source)?;
        self.places.push(words)?;
        Ok(Answer::Place(self.places.len()))
    }
}
