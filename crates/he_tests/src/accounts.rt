// Accounts of races, worked out by hand.

use he_addr::Ip;
use he_course::Account;
use he_plan::transcript_of;
use he_text::read_race;

// A race, the milliseconds of the names, nobody, unknown outcomes, this machine and connecting, and those of each
// attempt.
#[derive(Drop)]
struct Case {
    text: &'static str,
    shares: [u64; 5],
    tried: &'static [u64],
}

// 2001:db8::1
const UNTRIED: Ip = Ip::V6(0x2001_0db8_0000_0000_0000_0000_0000_0001);

const CASES: [Case; 17] = [
    // The first address is silent.
    Case {
        text: "race 1\naaaa 25 2001:db8::1\na 25 198.51.100.1\nconnect 198.51.100.1 ok 25\nend\n",
        shares: [25, 0, 0, 0, 25],
        tried: &[250, 0],
    },
    // It is refused, and there is a floor.
    Case {
        text: "race 2\nset floor 10\naaaa 20 2001:db8::1\na 20 198.51.100.1\nconnect 2001:db8::1 fail 1\n\
connect 198.51.100.1 ok 30\nend\n",
        shares: [20, 0, 0, 0, 30],
        tried: &[10, 0],
    },
    // The AAAA answer comes long after the attempt delay.
    Case {
        text: "race 1\naaaa 400 2001:db8::1\na 10 198.51.100.1\nconnect 2001:db8::1 ok 30\nend\n",
        shares: [150, 0, 0, 0, 30],
        tried: &[250, 0],
    },
    // The winner is slow, and others start after it.
    Case {
        text: "race 1\naaaa 0 2001:db8::1 2001:db8::2 2001:db8::3\na 0 none\nconnect 2001:db8::1 ok 600\nend\n",
        shares: [0, 0, 0, 0, 600],
        tried: &[0, 0, 0],
    },
    // Both fail, without a floor.
    Case {
        text: "race 1\naaaa 5 2001:db8::1\na 5 198.51.100.1\nconnect 2001:db8::1 fail 1\n\
connect 198.51.100.1 fail 1\nend\n",
        shares: [5, 0, 0, 0, 0],
        tried: &[250, 1],
    },
    // Both are silent up to the limit.
    Case {
        text: "race 1\naaaa 5 2001:db8::1\na 5 198.51.100.1\nend\n",
        shares: [5, 29495, 0, 0, 0],
        tried: &[250, 250],
    },
    // One fails, and the A answer never comes.
    Case {
        text: "race 1\naaaa 5 2001:db8::1\nconnect 2001:db8::1 fail 1\nend\n",
        shares: [29750, 0, 0, 0, 0],
        tried: &[250],
    },
    // The machine sleeps over both answers, for 4 ms, over a start, and over the winner's end.
    Case {
        text: "race 1\naaaa 20 2001:db8::1\na 20 198.51.100.1\nconnect 198.51.100.1 ok 14\npause 20 40\n\
pause 100 104\npause 285 300\npause 310 320\nend\n",
        shares: [20, 0, 0, 36, 14],
        tried: &[250, 0],
    },
    // No answer comes.
    Case {
        text: "race 1\nset limit 2000\nend\n",
        shares: [2000, 0, 0, 0, 0],
        tried: &[],
    },
    // The winner is neither the first attempt nor the last.
    Case {
        text: "race 1\naaaa 0 2001:db8::1 2001:db8::2 2001:db8::3\na 0 none\nconnect 2001:db8::2 ok 450\n\
connect 2001:db8::3 fail 1\nend\n",
        shares: [0, 0, 0, 0, 450],
        tried: &[250, 0, 0],
    },
    // With a floor each interval is its own address's.
    Case {
        text: "race 2\nset floor 10\naaaa 0 2001:db8::1 2001:db8::2 2001:db8::3 2001:db8::4\na 0 none\n\
connect 2001:db8::1 fail 1\nconnect 2001:db8::2 fail 1\nconnect 2001:db8::3 fail 1\nconnect 2001:db8::4 ok 15\nend\n",
        shares: [0, 0, 0, 0, 15],
        tried: &[10, 10, 10, 0],
    },
    // With a floor all wait for the first one's failure.
    Case {
        text: "race 2\nset floor 10\naaaa 0 2001:db8::1 2001:db8::2 2001:db8::3\na 0 none\n\
connect 2001:db8::1 fail 300\nconnect 2001:db8::2 fail 5\nconnect 2001:db8::3 ok 10\nend\n",
        shares: [0, 0, 0, 0, 10],
        tried: &[250, 50, 0],
    },
    // A pause that holds nothing back, and one over a start that is due at 250.
    Case {
        text: "race 1\naaaa 0 2001:db8::1\na 0 198.51.100.1\nconnect 198.51.100.1 ok 20\npause 100 110\n\
pause 240 300\nend\n",
        shares: [0, 0, 0, 50, 20],
        tried: &[250, 0],
    },
    // A pause of 4 ms over a start doesn't count, and one of 5 ms does.
    Case {
        text: "race 1\naaaa 0 2001:db8::1\na 0 198.51.100.1\nconnect 198.51.100.1 ok 20\npause 248 252\nend\n",
        shares: [0, 0, 0, 0, 20],
        tried: &[252, 0],
    },
    Case {
        text: "race 1\naaaa 0 2001:db8::1\na 0 198.51.100.1\nconnect 198.51.100.1 ok 20\npause 248 253\nend\n",
        shares: [0, 0, 0, 3, 20],
        tried: &[250, 0],
    },
    // The machine sleeps up to the limit while an address is left.
    Case {
        text: "race 1\nset limit 2000\naaaa 0 2001:db8::1\na 0 198.51.100.1\npause 240 3000\nend\n",
        shares: [0, 0, 0, 1750, 0],
        tried: &[250],
    },
    // It sleeps over the last failure, which ends the race.
    Case {
        text: "race 1\naaaa 0 none\na 0 198.51.100.1\nconnect 198.51.100.1 fail 30\npause 20 60\nend\n",
        shares: [0, 0, 0, 30, 0],
        tried: &[30],
    },
];

fn is_account(rt: &HostRuntime, case: &Case, untried: &[Ip]) -> bool {
    let Ok(Some(read)) = read_race(rt.alloc(), case.text.as_bytes(), 0) else {
        return false;
    };
    let Ok(transcript) = transcript_of(rt.alloc(), &read.0) else {
        return false;
    };
    match Account::of(rt.alloc(), &read.0, &transcript, untried) {
        Ok(account) => {
            let shares = [
                account.names,
                account.nobody,
                account.unknown,
                account.machine,
                account.connecting,
            ];
            shares == case.shares && account.tried.as_slice() == case.tried
        }
        Err(_) => false,
    }
}

#[test]
fn accounts(rt: HostRuntime) {
    for case in &CASES {
        assert!(rt; is_account(&rt, case, &[]), "{}", case.text);
    }
}

#[test]
fn untried_address(rt: HostRuntime) {
    let case = Case {
        text: CASES[0].text,
        shares: [25, 0, 250, 0, 25],
        tried: &[0, 0],
    };
    assert!(rt; is_account(&rt, &case, &[UNTRIED]));
}
