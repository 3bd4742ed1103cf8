// The lines of the first four groups, which set up a race.

ghost use Rattle.std.specs.Prelude.{◌≡◌, ◌⊎◌, ◌++◌, [], ◌∷◌, Ok, Err, IsOk, option_map, MatchResult};
ghost use Rattle.std.specs.Option.{option_map_or};
ghost use Rattle.he_timeline.specs.Building.{empty_race};
ghost use Rattle.he_select.specs.TableFaults.{table_fault};
ghost use Rattle.he_words.specs.declared.fault.TextKind.TheVariants as kinds;
ghost use Rattle.he_words.specs.declared.words.Word.TheVariants as words;
ghost use Rattle.he_reading.specs.Faults.{is_next};
ghost use Rattle.he_reading.specs.Left.{tokens_left};
ghost use Rattle.he_reading.specs.Parts.{lines_of};
ghost use Rattle.he_reading.specs.Reading.{Fails, no_head, add_setting, add_row, add_source, add_route, take_given, policy_from, host_from, race_begun};

use crate::draft::GivenSettings;
use crate::first_words::is_next;
use crate::forms;
use crate::parts::Tokens;
use he_select::limits::ROWS;
use he_select::{Host, Policy, PolicyFault, Route, Row, Source};
use he_timeline::Settings;
use he_words::{Name, TextKind, Word};
use std::alloc::Allocator;
use std::marker::Model;

// The parts of a race in which nothing has happened yet. The race itself is made where its lines are read: it is
// large, so it isn't passed from call to call.
#[derive(Drop)]
pub(crate) struct Scene<A: Allocator> {
    pub(crate) settings: Settings,
    pub(crate) policy: Policy<A>,
    pub(crate) host: Host<A>,
}

// The settings, rows, sources and routes given so far. Once no more rows follow, they are a policy table.
#[derive(Drop)]
pub(crate) struct Head<A: Allocator> {
    settings: GivenSettings,
    rows: Vec<Row, A>,
    sources: Vec<Source, A>,
    routes: Vec<Route, A>,
}

impl<A: Allocator> Model for Head<A> {
    ghost use Rattle.he_reading.specs.Reading.{HeadGiven};

    ghost Value = { HeadGiven };

    ghost view = { λ h. record { settings = h.settings; rows = h.rows.items; sources = h.sources.items; routes = h.routes.items } };
}

impl<A: Allocator + Copy> Head<A> {
    pub(crate) fn none(alloc: A) -> Head<A>
        ensures { result ≡ no_head }
    {
        Head {
            settings: GivenSettings::none(),
            rows: Vec::new(alloc),
            sources: Vec::new(alloc),
            routes: Vec::new(alloc),
        }
    }

    // Adds a setting. If no more settings follow it, a floor must be at most the attempt delay.
    #[tactic(auto, unfolding(crate::specs::Reading::add_setting))]
    fn add_setting(&mut self, name: Name, value: u64, rest: &[u8]) -> Result<(), TextKind>
        ensures { MatchResult result
            (λ _. add_setting (is_next words.Set (lines_of rest.now)) name value self.old ≡ Ok self.new)
            (λ kind. Fails kind (add_setting (is_next words.Set (lines_of rest.now)) name value self.old)) }
    {
        let given = self.settings.put(name, value)?;
        if given.is_above() && !is_next(Word::Set, rest) {
            return Err(TextKind::Range);
        }
        self.settings = given;
        Ok(())
    }

    // Adds a row. If no more rows follow it, they must be a table.
    #[tactic(auto, unfolding(crate::specs::Reading::add_row))]
    fn add_row(&mut self, row: Row, more: bool) -> Result<(), TextKind>
        ensures { MatchResult result (λ _. add_row more row self.old ≡ Ok self.new)
            (λ kind. Fails kind (add_row more row self.old)) }
    {
        if row.repeats(&self.rows) {
            return Err(TextKind::Repeated);
        }
        if !more && let Some(fault) = table_fault(&self.rows, row) {
            return Err(TextKind::Policy(fault));
        }
        self.rows.push(row)?;
        Ok(())
    }

    #[tactic(auto, unfolding(crate::specs::Reading::add_source))]
    fn add_source(&mut self, source: Source) -> Result<(), TextKind>
        ensures { MatchResult result (λ _. add_source source self.old ≡ Ok self.new)
            (λ kind. Fails kind (add_source source self.old)) }
    {
        if source.repeats(&self.sources) {
            return Err(TextKind::Repeated);
        }
        self.sources.push(source)?;
        Ok(())
    }

    #[tactic(auto, unfolding(crate::specs::Reading::add_route))]
    fn add_route(&mut self, route: Route) -> Result<(), TextKind>
        ensures { MatchResult result (λ _. add_route route self.old ≡ Ok self.new)
            (λ kind. Fails kind (add_route route self.old)) }
    {
        if route.repeats(&self.routes) {
            return Err(TextKind::Repeated);
        }
        self.routes.push(route)?;
        Ok(())
    }

    // Adds the content of a line of the first four groups, after its word. `rest`, the text after the line, shows
    // whether more lines of its group follow.
    #[tactic(auto, unfolding(crate::specs::Reading::take_given))]
    pub(crate) fn take(&mut self, word: Word, tokens: Tokens, rest: &[u8]) -> Result<(), TextKind>
        ensures { MatchResult result
            (λ _. take_given (is_next word (lines_of rest.now)) word (tokens_left tokens.entry) self.old ≡ Ok self.new)
            (λ kind. Fails kind
            (take_given (is_next word (lines_of rest.now)) word (tokens_left tokens.entry) self.old)) }
    {
        match word {
            Word::Set => {
                let (name, value) = forms::setting(tokens)?;
                self.add_setting(name, value, rest)
            }
            Word::Policy => {
                let row = forms::row(tokens)?;
                self.add_row(row, is_next(Word::Policy, rest))
            }
            Word::Source => {
                let source = forms::source(tokens)?;
                self.add_source(source)
            }
            Word::Route => {
                let route = forms::route(tokens)?;
                self.add_route(route)
            }
            _ => Err(TextKind::Word),
        }
    }

    // The parts of the race in which nothing has happened yet.
    #[tactic(auto, unfolding(crate::specs::Reading::race_begun, crate::specs::Reading::host_from))]
    pub(crate) fn scene(self, alloc: A) -> Result<Scene<A>, TextKind>
        ensures { MatchResult result
            (λ scene. race_begun self ≡ Ok (empty_race scene.settings scene.policy scene.host))
            (λ kind. Fails kind (race_begun self)) }
    {
        let settings = self.settings.settings()?;
        let policy = policy(alloc, self.rows)?;
        let host = Host::from_lists(self.sources, self.routes)?;
        Ok(Scene {
            settings,
            policy,
            host,
        })
    }
}

// The fault of these rows with a last one, if they are not a policy table. It allocates nothing.
fn table_fault(rows: &[Row], last: Row) -> Option<PolicyFault>
    ensures { result ≡ table_fault (rows.now ++ last ∷ []) }
{
    let count = rows.len();
    if count >= ROWS {
        return Some(PolicyFault::Size);
    }
    let mut table = [last; ROWS];
    table[..count].copy_from_slice(rows);
    PolicyFault::find(&table[..count + 1])
}

// The table of the rows; the standard one if there are none.
#[tactic(auto, unfolding(crate::specs::Reading::policy_from))]
fn policy<A: Allocator + Copy>(alloc: A, rows: Vec<Row, A>) -> Result<Policy<A>, TextKind>
    ensures { MatchResult result (λ policy. policy_from rows.items ≡ Ok policy)
        (λ kind. Fails kind (policy_from rows.items)) }
{
    if rows.is_empty() {
        return Policy::standard(alloc).map_err(|_| TextKind::Memory);
    }
    Ok(Policy::from_list(rows)?)
}
