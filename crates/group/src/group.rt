// A group: its sites by number, whatever their stores and logs are.
ghost use Rattle.std.specs.Prelude.{◌≡◌, map, length};
ghost use Rattle.std.specs.List.{slice_get, list_all, range_with_len, zip};
ghost use Rattle.std.specs.Option.{option_map};
ghost use Rattle.site.specs.Spoken.{asked, shown, shown_as, is_new};
ghost use Rattle.group.specs.Groups.{group_model, are_new, Making, called_at, heard_in, landed_in, Lawful};

use site::calls::{Calls, Request, Response, Shown};
use site::refusals::Refusal;
use words::limits::is_group;

#[derive(Drop)]
pub struct Group<C: Calls> {
    sites: Vec<C>,
}

// Whether each site is as it was made, and stands at its number.
fn each_new<C: Calls>(sites: &[C], count: u32) -> bool
    ensures { result ≡ list_all (λ p. is_new count p.0 (C.Calls.model p.1)) (zip (range_with_len 0 count) sites.now) }
{
    (0..count)
        .zip(sites)
        .all(|(number, site)| site.is_new(count, number))
}

// Whether these are the sites of a group, as they were made.
fn are_all_new<C: Calls>(sites: &[C]) -> bool
    ensures { result ≡ are_new (map C.Calls.model sites.now) }
{
    let Ok(count) = u32::try_from(sites.len()) else {
        return false
    };
    is_group(count) && each_new(sites, count)
}

impl<C: Calls> Group<C> {
    /// A group of 2 to 8 sites by their numbers, each as it was made; otherwise the sites come back. A run begins here.
    pub fn new(sites: Vec<C>) -> Result<Group<C>, Vec<C>>
        ensures { Making C.Calls.model sites result }
    {
        if !are_all_new(&sites) {
            return Err(sites);
        }
        Ok(Group { sites })
    }

    /// One call at one site; none where there is no such site. Whatever run led here goes on with it, and the law holds of its
    /// whole record.
    pub fn call(
        &mut self,
        site: u32,
        request: Request,
        words: &[u32],
        out: &mut [u32],
    ) -> Option<Result<Response, Refusal>>
        ensures answered { (heard_in result out.new, group_model C.Calls.model self.new) ≡ called_at (group_model C.Calls.model self.old) site (asked request words.now (length out.old)) }
        ensures buffer { out.new ≡ landed_in (heard_in result out.new) out.old }
        ensures lawful { Lawful (group_model C.Calls.model self.old) (group_model C.Calls.model self.new) site (asked request words.now (length out.old)) (heard_in result out.new) }
    {
        let site = self.sites.get_mut(site as usize)?;
        Some(site.call(request, words, out))
    }

    /// What a site shows of itself, in any mode; none where there is no such site.
    pub fn show(&self, site: u32) -> Option<Shown>
        ensures { option_map shown_as result ≡ option_map shown (slice_get (group_model C.Calls.model self.now) site) }
    {
        self.sites.get(site as usize).map(|site| site.show())
    }
}
