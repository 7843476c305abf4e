// A site over either store and either log, so that the sites of one group can differ.
ghost use Rattle.group.specs.AnyModel.{any_model};
ghost use Rattle.store.specs.JournalModel.{journal_model};
ghost use Rattle.store.specs.ChainsModel.{chains_model};
ghost use Rattle.store.specs.JournalRow.{journal_bounded};
ghost use Rattle.store.specs.ChainsRow.{chains_bounded};
ghost use Rattle.logs.specs.FlatModel.{flat_model};
ghost use Rattle.logs.specs.PackedModel.{packed_model};
ghost use Rattle.logs.specs.LogBounds.{flat_bounded, packed_bounded};
ghost use Rattle.site.specs.SiteBounds.{site_bounded};
ghost use Rattle.group.specs.declared.any.AnySite.TheVariants.{JournalFlat, JournalPacked, ChainsFlat, ChainsPacked};

use logs::flat::Flat;
use logs::packed::Packed;
use site::calls::{Calls, Request, Response, Shown};
use site::refusals::Refusal;
use site::site::Site;
use store::chains::Chains;
use store::journal::Journal;

// Each call is one match over the four kinds: what hands out a `dyn Calls` is refused, and a closure takes sites of one type only.
#[derive(Drop)]
pub enum AnySite {
    JournalFlat(Site<Journal, Flat>),
    JournalPacked(Site<Journal, Packed>),
    ChainsFlat(Site<Chains, Flat>),
    ChainsPacked(Site<Chains, Packed>),
}

impl Calls for AnySite {
    ghost model = { any_model };

    ghost bounded = { elim [
      | JournalFlat s ↦ site_bounded journal_model flat_model s (journal_bounded s.store) (flat_bounded s.log)
      | JournalPacked s ↦ site_bounded journal_model packed_model s (journal_bounded s.store) (packed_bounded s.log)
      | ChainsFlat s ↦ site_bounded chains_model flat_model s (chains_bounded s.store) (flat_bounded s.log)
      | ChainsPacked s ↦ site_bounded chains_model packed_model s (chains_bounded s.store) (packed_bounded s.log)
    ] };

    fn is_new(&self, sites: u32, number: u32) -> bool {
        match self {
            AnySite::JournalFlat(site) => site.is_new(sites, number),
            AnySite::JournalPacked(site) => site.is_new(sites, number),
            AnySite::ChainsFlat(site) => site.is_new(sites, number),
            AnySite::ChainsPacked(site) => site.is_new(sites, number),
        }
    }

    fn show(&self) -> Shown {
        match self {
            AnySite::JournalFlat(site) => site.show(),
            AnySite::JournalPacked(site) => site.show(),
            AnySite::ChainsFlat(site) => site.show(),
            AnySite::ChainsPacked(site) => site.show(),
        }
    }

    fn call(
        &mut self,
        request: Request,
        words: &[u32],
        out: &mut [u32],
    ) -> Result<Response, Refusal> {
        match self {
            AnySite::JournalFlat(site) => site.call(request, words, out),
            AnySite::JournalPacked(site) => site.call(request, words, out),
            AnySite::ChainsFlat(site) => site.call(request, words, out),
            AnySite::ChainsPacked(site) => site.call(request, words, out),
        }
    }
}
