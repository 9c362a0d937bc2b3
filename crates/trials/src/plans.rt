// Histories of plans: random lists of calls on plans that are opened from random files.
ghost use Rattle.std.specs.Prelude.{◌≤◌};
ghost use Rattle.network.specs.Limits.{max_links, max_nodes};

use crate::calls::{Question, altered_right};
use crate::files::{damaged_right, file_of, file_right, lengthened_right};
use crate::lightest::{least_right, lightest_right};
use crate::machine::{Entry, Machine};
use crate::previews::preview_right;
use crate::random::Random;
use crate::sides::Sides;
use crate::tally::Kind;
use crate::trial::Trial;
use network::{MAX_CAPACITY, MAX_LINKS, MAX_NODES, Network, Refusal};
use plan::{Altered, MAX_DEMAND, Plan};

// How many lists of calls a plan gets, and of how many nodes and links the networks are: sometimes of so many that m
// has two bytes.
const LISTS: usize = 4;

const LAST_NODE: usize = 8;

const LINKS: usize = 14;

const MANY_LINKS: usize = 140;

// What a list mostly has.
#[derive(Clone, Copy)]
enum Mood {
    Changes,
    Undos,
    Mixed,
}

impl Mood {
    fn of(random: Random) -> Mood {
        match random.last(7) {
            0 => Mood::Changes,
            1 => Mood::Undos,
            _ => Mood::Mixed,
        }
    }

    fn list_length(self) -> usize {
        match self {
            Mood::Changes | Mood::Undos => 90,
            Mood::Mixed => 12,
        }
    }
}

// What is asked for two nodes.
#[derive(Clone, Copy)]
enum Asked {
    Pair,
    Flow,
    Headroom,
}

#[derive(Clone, Copy)]
enum Call {
    Ask(Asked),
    Change,
    Undo,
}

impl Call {
    fn drawn(random: &mut Random, mood: Mood) -> Call {
        match (random.draw(15), mood) {
            (0, _) => Call::Ask(Asked::Pair),
            (1, _) => Call::Ask(Asked::Flow),
            (2, _) => Call::Ask(Asked::Headroom),
            (_, Mood::Changes) => Call::Change,
            (_, Mood::Undos) => Call::Undo,
            (3..11, Mood::Mixed) => Call::Change,
            (_, Mood::Mixed) => Call::Undo,
        }
    }
}

// a demand: small, large, or above the limit
fn some_demand(random: &mut Random) -> u32 {
    match random.draw(3) {
        0 => random.draw(20) as u32,
        1 => random.draw(20_000_000) as u32,
        2 => MAX_DEMAND,
        _ => MAX_DEMAND + 1,
    }
}

// a capacity: now and then above the limit
fn some_capacity(random: &mut Random, net: &Network, k: usize) -> u32 {
    if random.draw(15) == 0 {
        return MAX_CAPACITY + 1;
    }
    random.new_capacity(net, k)
}

// A plan on its way through calls, the machine beside it, and the trial that draws and counts them.
#[derive(Drop)]
struct Run<'a> {
    trial: Trial<'a>,
    plan: Plan,
    machine: Machine,
}

impl Run<'_> {
    // the highest number that is drawn for a link, now and then the one behind the last; and so for a node
    fn last_link(&self) -> usize
        ensures { result ≤ max_links }
    {
        self.machine.network.links.min(MAX_LINKS)
    }

    fn last_node(&self) -> usize
        ensures { result ≤ max_nodes }
    {
        self.machine.network.nodes.min(MAX_NODES)
    }

    // Judges and counts a change, or an undo, and takes the plan that it leaves. The outcome is what the machine says:
    // the link and its new capacity, or the refusal.
    fn note(&mut self, outcome: Result<Entry, Refusal>, reply: Result<Altered, Refusal>) {
        let right = match outcome {
            Ok(change) => altered_right(&self.plan, change, reply, &self.machine),
            Err(refusal) => reply == Err(refusal),
        };
        if let Ok(altered) = reply {
            self.plan = altered.plan;
        }
        self.trial
            .tally
            .count_call(Kind::Call, outcome.map(|_| ()), right);
    }

    fn try_change(&mut self, mut random: Random) {
        let link = random.draw(self.last_link());
        let capacity = some_capacity(&mut random, &self.machine.network, link);
        let change = Entry { link, capacity };
        let outcome = self.machine.change(change);
        let reply = plan::change(self.plan, link, capacity);
        self.note(outcome.map(|()| change), reply);
    }

    fn try_undo(&mut self) {
        let outcome = self.machine.undo();
        let reply = plan::undo(self.plan);
        self.note(outcome, reply);
    }

    // A pair, flow or headroom call for nodes that may be none or equal, and a look at the lightest edge.
    fn ask(&mut self, asked: Asked, mut random: Random) {
        let n = self.last_node();
        let s = random.draw(n);
        let t = random.draw(n);
        let sides = Sides::if_fits(&self.machine.network);
        let machine = &self.machine;
        let question = Question {
            plan: &self.plan,
            machine,
            sides: &sides,
            s,
            t,
        };
        let (outcome, right) = match asked {
            Asked::Pair => (machine.check_pair(s, t), question.pair_right()),
            Asked::Flow => {
                let length = self.last_link() + random.draw(1);
                (
                    machine.check_flow(s, t, length),
                    question.flow_right(length),
                )
            }
            Asked::Headroom => {
                let demand = some_demand(&mut random);
                (
                    machine.check_headroom(s, t, demand),
                    question.headroom_right(demand),
                )
            }
        };
        let least = least_right(&self.plan, &sides);
        self.trial
            .tally
            .count_call(Kind::Call, outcome, least && right);
    }

    // A preview of a change that may be refused, for nodes that may be none or equal. Its draws are not those of the
    // calls.
    fn try_preview(&mut self) {
        let mut random = self.trial.random.apart();
        let link = random.last(self.last_link());
        let capacity = some_capacity(&mut { random }, &self.machine.network, link);
        let change = Entry { link, capacity };
        random.skip(1);
        let mut nodes = random.apart();
        let n = self.last_node();
        let s = nodes.draw(n);
        let t = nodes.draw(n);
        let right = preview_right(&self.plan, &self.machine, change, s, t);
        let outcome = self.machine.check_preview(change, s, t);
        self.trial.tally.count_call(Kind::Preview, outcome, right);
    }

    // A preview, then a call. The next one goes on with draws that this one has made, too.
    fn one_call(&mut self, mood: Mood) {
        self.try_preview();
        let call = Call::drawn(&mut self.trial.random, mood);
        let ahead = self.trial.random;
        self.trial.random.skip(2);
        match call {
            Call::Ask(asked) => self.ask(asked, ahead),
            Call::Change => self.try_change(ahead),
            Call::Undo => self.try_undo(),
        }
    }

    fn try_pairs(&mut self, sides: &Sides) {
        let Run {
            trial,
            plan,
            machine,
        } = self;
        let Network { nodes, links, .. } = machine.network;
        trial.tally.count_pairs(nodes, |s, t| {
            let question = Question {
                plan,
                machine,
                sides,
                s,
                t,
            };
            question.pair_right() && question.flow_right(links)
        });
    }

    fn try_list(&mut self) {
        let mood = Mood::of(self.trial.random);
        for _ in 0..mood.list_length() {
            self.one_call(mood);
        }
        let net = &self.machine.network;
        let sides = Sides::if_fits(net);
        let right = least_right(&self.plan, &sides) && file_right(&self.plan, net);
        self.trial.tally.count(Kind::List, right);
        self.try_pairs(&sides);
    }
}

// A plan that is opened from the file of a random network, and its lists of calls.
pub fn try_network(trial: &mut Trial) {
    let most = if trial.random.last(9) == 0 {
        MANY_LINKS
    } else {
        LINKS
    };
    let network = trial.random.network(LAST_NODE, most);
    let file = file_of(&network);
    let Ok(plan) = plan::open(&file) else {
        trial.tally.count(Kind::Network, false);
        return;
    };
    let sides = Sides::if_fits(&network);
    let opened = plan.network == network && plan.stack.depth == 0;
    let least = lightest_right(&plan) && least_right(&plan, &sides);
    let damaged = lengthened_right(file_of(&network)) && damaged_right(file);
    trial.tally.count(Kind::Network, opened && least && damaged);
    let mut run = Run {
        trial: trial.apart(),
        plan,
        machine: Machine::started(network),
    };
    for _ in 0..LISTS {
        run.try_list();
    }
}
