// Races with the objects that explain them, worked out by hand. They are among the examples too, as
// `explained-late-aaaa` and so on.

// The Resolution Delay ends, and the AAAA answer comes when no address is left.
const LATE_AAAA: (&str, &str) = (
    "race 1
source 2001:db8::2/64 1
source 192.0.2.2/24 1
route ::/0 1
route 0.0.0.0/0 1
aaaa 400 2001:db8:1::1
a 10 198.51.100.1
connect 2001:db8:1::1 ok 30
end
",
    "{\"file\":null,\"race\":1,\"line\":1,\
\"ms\":430,\"names_ms\":150,\"lost_ms\":250,\"unknown_ms\":0,\"machine_ms\":0,\"connecting_ms\":30,\
\"order\":[{\"place\":0,\"address\":\"2001:db8:1::1\",\
\"source\":\"2001:db8::2\"},{\"place\":1,\"address\":\"198.51.100.1\",\"source\":\"192.0.2.2\",\
\"rule\":\"6\",\"why\":\"prefer higher precedence\",\"own\":35,\"before\":40}],\
\"events\":[{\"tick\":10,\"event\":\"answer\",\"family\":\"a\",\"usable\":1},{\"tick\":10,\
\"event\":\"wait\",\"family\":\"aaaa\",\"until\":60},{\"tick\":60,\"event\":\"delay over\"},\
{\"tick\":60,\"event\":\"attempt\",\"attempt\":0,\"address\":\"198.51.100.1\",\
\"cause\":\"resolution delay\",\"held\":false,\"listed\":0,\"of\":1,\"turn\":\"leads\"},\
{\"tick\":400,\"event\":\"answer\",\"family\":\"aaaa\",\"usable\":1},{\"tick\":400,\
\"event\":\"attempt\",\"attempt\":1,\"address\":\"2001:db8:1::1\",\"cause\":\"later aaaa answer\",\
\"held\":false,\"listed\":0,\"of\":2,\"turn\":\"leads\"},{\"tick\":430,\"event\":\"won\",\
\"attempt\":1},{\"tick\":430,\"event\":\"cancelled\",\"attempt\":0}]}
",
);

// A wait that the AAAA answer ends, a failure, and a pause over a start.
const NEGATIVE_AAAA: (&str, &str) = (
    "race 1
source 2001:db8::2/64 1
source 192.0.2.2/24 1
route ::/0 1
route 0.0.0.0/0 1
aaaa 40 none
a 10 198.51.100.1 198.51.100.2
connect 198.51.100.1 fail 200
connect 198.51.100.2 ok 30
pause 280 300
end
",
    "{\"file\":null,\"race\":1,\"line\":1,\
\"ms\":330,\"names_ms\":40,\"lost_ms\":250,\"unknown_ms\":0,\"machine_ms\":10,\"connecting_ms\":30,\
\"order\":[{\"place\":0,\"address\":\"198.51.100.1\",\
\"source\":\"192.0.2.2\"},{\"place\":1,\"address\":\"198.51.100.2\",\"source\":\"192.0.2.2\",\
\"rule\":\"10\",\"why\":\"otherwise leave the order unchanged\"}],\"events\":[{\"tick\":10,\
\"event\":\"answer\",\"family\":\"a\",\"usable\":2},{\"tick\":10,\"event\":\"wait\",\
\"family\":\"aaaa\",\"until\":60},{\"tick\":40,\"event\":\"answer\",\"family\":\"aaaa\",\
\"usable\":0},{\"tick\":40,\"event\":\"attempt\",\"attempt\":0,\"address\":\"198.51.100.1\",\
\"cause\":\"both answers\",\"held\":false,\"listed\":0,\"of\":2,\"turn\":\"leads\"},{\"tick\":240,\
\"event\":\"failed\",\"attempt\":0},{\"tick\":280,\"event\":\"pause\",\"until\":300},{\"tick\":300,\
\"event\":\"attempt\",\"attempt\":1,\"address\":\"198.51.100.2\",\"cause\":\"attempt delay\",\
\"delay\":250,\"after\":0,\"held\":true,\"listed\":1,\"of\":2,\"turn\":\"other run out\"},\
{\"tick\":330,\"event\":\"won\",\"attempt\":1}]}
",
);

// The race is exhausted.
const BOTH_FAMILIES_FAIL: (&str, &str) = (
    "race 1
source 2001:db8::2/64 1
source 192.0.2.2/24 1
route ::/0 1
route 0.0.0.0/0 1
aaaa 20 2001:db8:1::1
a 20 198.51.100.1
connect 2001:db8:1::1 fail 5
connect 198.51.100.1 fail 5
end
",
    "{\"file\":null,\"race\":1,\"line\":1,\
\"ms\":275,\"names_ms\":20,\"lost_ms\":255,\"unknown_ms\":0,\"machine_ms\":0,\"connecting_ms\":0,\
\"order\":[{\"place\":0,\"address\":\"2001:db8:1::1\",\
\"source\":\"2001:db8::2\"},{\"place\":1,\"address\":\"198.51.100.1\",\"source\":\"192.0.2.2\",\
\"rule\":\"6\",\"why\":\"prefer higher precedence\",\"own\":35,\"before\":40}],\
\"events\":[{\"tick\":20,\"event\":\"answer\",\"family\":\"aaaa\",\"usable\":1},{\"tick\":20,\
\"event\":\"answer\",\"family\":\"a\",\"usable\":1},{\"tick\":20,\"event\":\"attempt\",\
\"attempt\":0,\"address\":\"2001:db8:1::1\",\"cause\":\"aaaa answer\",\"held\":false,\"listed\":0,\
\"of\":2,\"turn\":\"leads\"},{\"tick\":25,\"event\":\"failed\",\"attempt\":0},{\"tick\":270,\
\"event\":\"attempt\",\"attempt\":1,\"address\":\"198.51.100.1\",\"cause\":\"attempt delay\",\
\"delay\":250,\"after\":0,\"held\":false,\"listed\":1,\"of\":2,\"turn\":\"in turn\"},{\"tick\":275,\
\"event\":\"failed\",\"attempt\":1},{\"tick\":275,\"event\":\"exhausted\"}]}
",
);

pub static RACES: [(&str, &str); 3] = [LATE_AAAA, NEGATIVE_AAAA, BOTH_FAMILIES_FAIL];
